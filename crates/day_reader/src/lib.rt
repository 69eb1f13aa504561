#![tactic(auto)]
// A day's file in a single call, for C. In an archive of its own, where the listing's reader has this one caller and
// becomes part of it.
ghost use Rattle.std.specs.Prelude.{◌≡◌, length};
ghost use Rattle.days.specs.Day.{day_answer, day_table, records_of};
ghost use Rattle.day_reader.specs.Answer.{answered};

use days::answer::{DayRefusal, Records};
use days::slot::Slot;
use days::table::read_day;

#[repr(C)]
#[derive(Clone, Copy, Default)]
pub struct UgbDay {
    pub refusal: DayRefusal,
    pub records: Records,
}

impl From<Result<Records, DayRefusal>> for UgbDay {
    #[tactic(auto, unfolding(crate::specs::Answer::answered))]
    fn from(read: Result<Records, DayRefusal>) -> Self
        ensures { result ≡ answered read }
    {
        match read {
            Err(refusal) => UgbDay {
                refusal,
                ..UgbDay::default()
            },
            Ok(records) => UgbDay {
                records,
                ..UgbDay::default()
            },
        }
    }
}

#[unsafe(no_mangle)]
pub extern "C" fn ugb_read_day(file: &[u8], table: &mut [Slot]) -> UgbDay
    ensures value { result ≡ answered (day_answer (records_of file.now) (length table.old)) }
    ensures table_after { table.new ≡ day_table (records_of file.now) table.old }
{
    UgbDay::from(read_day(file, table))
}
