#![tactic(auto)]
// Reading a section: the steps in 01's order, the summary and the full reading, and what a caller does with them.
mod end;
mod field;
pub mod held;
pub mod label;
pub mod properties;
pub mod same;
pub mod section;
pub mod security;
pub mod view;
