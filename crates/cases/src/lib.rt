// Document 01's marked cases. They are about the definitions alone: specs/Marked.antt has the table, proofs/Marked.antt the proof.
#![tactic(auto)]
