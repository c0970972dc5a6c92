// What the program `losses` prints of a line, as theorems (request E7). This is about the definitions alone: proofs/ has the theorems.
#![tactic(auto)]
