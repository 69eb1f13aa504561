#![tactic(auto)]
// What C calls: include/ugbariteyo.h declares it. Each export hands on to the function of `ugbariteyo` with its name, and
// promises what that does. A slice passes as pointer and length, a struct by value.
pub mod copy;
pub mod defaulted;
pub mod field;
pub mod label;
pub mod properties;
pub mod queue;
pub mod record;
pub mod section;
pub mod write;
