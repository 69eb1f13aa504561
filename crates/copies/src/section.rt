// The support copy of one section.
use crate::told::tell_refused;
use octets::count::Bytes;
use octets::part::within;
use streams::input::{Ended, fill};
use streams::output::put_first;
use streams::section::{section_buffer, tell_too_long};
use streams::streams::Standard;
use support::copy::support_copy;

fn put_copy(streams: &mut Standard, s: &[u8], security_first: bool) {
    let mut out = section_buffer();
    match support_copy(s, security_first, &mut out) {
        Err(r) => tell_refused(&mut streams.errors, r),
        Ok(n) => {
            put_first(streams, &out, n);
        }
    }
}

// (`inspect` fills its section alike; what each then does, and with which streams, differs.)
pub(crate) fn copy_section(streams: &mut Standard, security_first: bool) {
    let mut input = section_buffer();
    let filled = fill(streams, &mut input);
    match filled.ended {
        Ended::Failed => {}
        Ended::Full => tell_too_long(&mut streams.errors),
        Ended::Over => put_copy(
            streams,
            within(&input, Bytes(0), filled.count),
            security_first,
        ),
    }
}
