#![tactic(auto)]
// The field or part of a section at a place, so that a refusal can be told in words.
pub mod field;
pub mod place;
mod widths;
