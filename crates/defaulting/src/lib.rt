#![tactic(auto)]
// Send requests checked in 01's order, and given their defaults.
pub mod defaulted;
mod length;
mod steps;
