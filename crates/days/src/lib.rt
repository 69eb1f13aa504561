#![tactic(auto)]
// A day's file in a single call (C-15): the values of each record's listing line, in a lent table.
pub mod answer;
mod count;
pub mod slot;
pub mod table;
