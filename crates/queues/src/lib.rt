#![tactic(auto)]
// Queue formats: reading and writing the image of a QUEUE_FORMAT (004).
pub mod format;
pub mod image;
pub mod read;
mod steps;
pub mod write;
