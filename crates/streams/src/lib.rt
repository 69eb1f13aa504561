#![tactic(auto)]
// Standard input and output for the programs, and the words that they are started with. What fails is told on standard
// error, with the system's reason, and to the caller. Reading and writing are generic over the streams, so that contracts
// name the bytes.
pub mod buffer;
pub mod input;
pub mod output;
mod reason;
pub mod section;
pub mod streams;
pub mod text;
pub mod window;
pub mod word;
