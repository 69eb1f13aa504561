#![tactic(auto)]
// The support copy: the section with every private bit zero, into a lent output; and whether a proposed copy is it.
pub mod copy;
mod header;
mod placed;
pub mod proposed;
mod run;
