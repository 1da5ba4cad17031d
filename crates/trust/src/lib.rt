// Why the definitions of `language` may be believed: what reading accepts is exactly the rules, words stand for one term alone, and an image
// keeps to its ranges. Statements in specs/, proofs in proofs/. No code.

#![tactic(auto)]
