#![tactic(auto)]
// The support copies of a day's file: a record at a time.
pub mod record;
