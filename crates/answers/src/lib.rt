// What an answer of the code is seen as by a definition, and that nothing of it is lost. This is about the definitions alone: specs/ says
// what is claimed, proofs/ has the theorems.
#![tactic(auto)]
