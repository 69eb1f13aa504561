#![tactic(auto)]
// Bytes and 16-bit text as a person reads them.
pub mod hex;
pub mod shown;
