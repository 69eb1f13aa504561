#![tactic(auto)]
// Body values by type (C-16): a body that is a single number, read and written.
mod bits;
pub mod read;
pub mod value;
pub mod write;
