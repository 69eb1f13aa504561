#![tactic(auto)]
// 01's rules on values, shared by reading and writing: layouts, steps and verdicts. Their definitions are in specs/.
pub mod class;
pub mod layout;
pub mod place;
pub mod properties;
pub mod refusal;
pub mod section;
pub mod security;
pub mod verdict;
