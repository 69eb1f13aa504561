#![tactic(auto)]
// What C calls, and what calls as C does: include/ugbariteyo.h declares it, and the exports are the crate `ugbariteyo_c`.
// A slice passes as pointer and length, a struct by value. No enum passes, so an answer is a struct that holds the
// refusal beside the value.
pub mod copy;
pub mod defaulted;
pub mod field;
pub mod label;
pub mod output;
pub mod properties;
pub mod queue;
pub mod record;
pub mod request;
pub mod section;
pub mod send;
pub mod write;
pub mod zero;
