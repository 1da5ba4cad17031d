// The theory of what an image means: no code. Its statements stand in specs/, their proofs in proofs/.

#![tactic(auto)]
