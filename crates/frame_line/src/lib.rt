// Whole frames at both ends of a line. This is about the definitions alone: specs/ has the decoder of a frame, both ends frame by frame and
// what is claimed of them, proofs/ the theorems.
#![tactic(auto)]
