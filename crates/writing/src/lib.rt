#![tactic(auto)]
// Writing a section, part by part, into a lent output.
mod field;
mod part;
mod properties;
pub mod section;
mod security;
pub mod values;
