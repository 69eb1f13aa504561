#![tactic(auto)]
// Reading a section in portions (C-12): a state of fixed size, started, fed with portions and finished.
pub mod finish;
pub mod name;
pub mod place;
pub mod portion;
pub mod properties;
pub mod state;
mod window;
