#![tactic(auto)]
// The listing program's file: a record at a time, and the lines that are printed for it.
pub mod append;
mod decimal;
pub mod enough;
pub mod head;
pub mod line;
mod piece;
pub mod record;
