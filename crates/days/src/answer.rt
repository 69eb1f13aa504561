// What reading a day's file comes to.
ghost use Rattle.std.specs.Prelude.{◌≡◌};
ghost use Rattle.days.specs.Day.{refused};
ghost use Rattle.rules.specs.Refusal.{number};

use rules::refusal::Cause;

// A count of records, or a record's number; the first has 0.
#[repr(C)]
#[derive(Clone, Copy, Default)]
pub struct Records(pub usize);

// As C has it, and no `Refusal`, whose place counts bytes. 15 at the number of the bad or cut record, or 16 at 0.
#[repr(C)]
#[derive(Clone, Copy, Default)]
pub struct DayRefusal {
    pub number: u32,
    pub place: Records,
}

pub(crate) fn refused(cause: Cause, place: Records) -> Result<Records, DayRefusal>
    ensures { result ≡ refused (number cause) place.0 }
{
    Err(DayRefusal {
        number: cause.number(),
        place,
    })
}
