// Both sets of a line are whole multiples of 2^-13, so that what lies between them can be counted in whole steps (request E7). This is
// about the definitions alone: proofs/ has the theorems.
#![tactic(auto)]
