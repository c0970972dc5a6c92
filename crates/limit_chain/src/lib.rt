// The limit of the lags from stage to stage, and two limits beside each other (request E6). This is about the definitions alone: proofs/ has
// the theorems.
#![tactic(auto)]
