// The line over code rows of a caller's own. This is about the definitions alone: specs/ says what is claimed, proofs/ has the theorem.
#![tactic(auto)]
