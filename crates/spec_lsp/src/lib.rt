// The predictive split quantiser of the line frequencies and its decoder (§2.5, §2.6). Frequencies are in the tables' units, of which 32,768 make
// half a circle.
#![tactic(auto)]

pub mod decode;
pub mod quantise;
pub mod resting;
