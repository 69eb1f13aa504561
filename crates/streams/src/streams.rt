// What a program reads and writes.
use std::io::{Stderr, Stdin, Stdout};

// Its input, its output, and where it tells what failed.
#[derive(Drop)]
pub struct Streams<I, O, E> {
    pub input: I,
    pub output: O,
    pub errors: E,
}

// A program's own three.
pub type Standard = Streams<Stdin, Stdout, Stderr>;

pub fn standard(rt: HostRuntime) -> Standard {
    Streams {
        input: rt.stdin(),
        output: rt.stdout(),
        errors: rt.stderr(),
    }
}
