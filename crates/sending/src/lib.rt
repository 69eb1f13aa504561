#![tactic(auto)]
// Send requests as sections: checked, given their defaults, and written through the section writer.
pub mod send;
mod units;
mod values;
