#![tactic(auto)]
// Bytes, before any header: counts, little-endian numbers, padding, 16-bit text, parts of a slice, whether bytes are the
// same, and what is written over an output.
pub mod count;
pub mod number;
pub mod over;
pub mod padding;
pub mod part;
pub mod same;
pub mod text;
