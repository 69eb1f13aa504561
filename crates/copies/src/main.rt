#![tactic(auto)]
// Copies for support staff: a section on standard input, or a day's file of them, and on standard output the same with
// every private bit zero, as 01 says. What could not be copied is told on standard error.
mod day;
mod section;
mod told;

use day::copy_day;
use section::copy_section;
use streams::streams::{Standard, standard};
use streams::word::{has_word, is_word};
use told::tell_usage;

// With one word, besides the program's name.
fn copy(rt: HostRuntime, streams: &mut Standard) {
    if is_word(&rt, 1, b"day") {
        copy_day(streams);
        return;
    }
    if is_word(&rt, 1, b"security") {
        copy_section(streams, true);
        return;
    }
    if is_word(&rt, 1, b"properties") {
        copy_section(streams, false);
        return;
    }
    tell_usage(&mut streams.errors);
}

fn main(rt: HostRuntime) {
    let mut streams = standard(rt);
    if !has_word(&rt, 1) || has_word(&rt, 2) {
        tell_usage(&mut streams.errors);
        return;
    }
    copy(rt, &mut streams);
}
