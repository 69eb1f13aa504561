// Counting: the whole records up to the first bad or cut one, by their heads.
ghost use Rattle.std.specs.Prelude.{◌≡◌};
ghost use Rattle.days.specs.Day.{day_answer, records_of};

use crate::answer::{DayRefusal, Records, refused};
use records::head::{HEAD, Next, next_head};
use rules::refusal::Cause;

// A table takes no more records.
const MOST: usize = 256;

// The answer for a table of so many slots. One record too many ends the counting: 16 comes before 15.
pub(crate) fn count_records(file: &[u8], slots: Records) -> Result<Records, DayRefusal>
    ensures { result ≡ day_answer (records_of file.now) slots.0 }
{
    let most = slots.0.min(MOST);
    let mut at = 0;
    let mut records = 0;
    // the records are counted as they are parsed: there is nothing to iterate over
    loop {
        match next_head(&file[at..]) {
            Next::End => return Ok(Records(records)),
            Next::Stop => return refused(Cause::BadRecord, Records(records)),
            Next::Found(head) => {
                if records == most {
                    return refused(Cause::TooManyRecords, Records(0));
                }
                records += 1;
                at += HEAD + head.length.0;
            }
        }
    }
}
