// What is told on standard error. Nothing of it is taken from a section but its refusal. Piece by piece: where a piece
// cannot be written the next is tried, and `write!` would stop there.
use rules::refusal::Refusal;
use std::io::Write;
use streams::output::{tell, tell_number};

pub(crate) fn tell_usage<E: Write>(errors: &mut E) {
    tell(
        errors,
        b"usage: copies day|security|properties < INPUT > COPY\n",
    );
    tell(
        errors,
        b"  day         a day's file: each section replaced by its support copy\n",
    );
    tell(
        errors,
        b"  security    one section; a SecurityHeader stands first\n",
    );
    tell(
        errors,
        b"  properties  one section; the MessagePropertiesHeader stands first\n",
    );
}

pub(crate) fn tell_refused<E: Write>(errors: &mut E, r: Refusal) {
    tell(errors, b"refused ");
    tell_number(errors, r.number as u64);
    tell(errors, b" at ");
    tell_number(errors, r.place.0 as u64);
    tell(errors, b"\n");
}

// Records have the numbers that the listing gives them.
fn tell_record<E: Write>(errors: &mut E, number: u64) {
    tell(errors, b"record ");
    tell_number(errors, number);
    tell(errors, b": ");
}

pub(crate) fn tell_left_out<E: Write>(errors: &mut E, number: u64, r: Refusal) {
    tell_record(errors, number);
    tell_refused(errors, r);
}

pub(crate) fn tell_stopped<E: Write>(errors: &mut E, number: u64) {
    tell_record(errors, number);
    tell(errors, b"wrong or cut, stopped\n");
}

pub(crate) fn tell_counts<E: Write>(errors: &mut E, copied: u64, left_out: u64) {
    tell(errors, b"copied ");
    tell_number(errors, copied);
    tell(errors, b", left out ");
    tell_number(errors, left_out);
    tell(errors, b"\n");
}
