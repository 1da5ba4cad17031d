// How many words an image has: definitions in specs/, laws and the seven-times bound in proofs/. No code.

#![tactic(auto)]
