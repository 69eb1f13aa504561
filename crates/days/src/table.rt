// The table that is filled.
ghost use Rattle.std.specs.Prelude.{◌≡◌, ◌≤◌, length};
ghost use Rattle.octets.specs.Over.{over};
ghost use Rattle.days.specs.Day.{day_answer, day_table, fills, records_of, slots_of};

use crate::answer::{DayRefusal, Records};
use crate::count::count_records;
use crate::slot::{Slot, slot_of};
use records::head::Next;
use records::record::next_record;
use rules::refusal::Cause;

// Reads each section once, up to the first bad or cut record. (How far it has come depends on what is read: nothing counts
// it but `at`.)
fn fill(file: &[u8], table: &mut [Slot])
    requires { length (records_of file.now).answers ≤ length table.old }
    ensures { table.new ≡ over (slots_of (records_of file.now)) table.old }
{
    let mut at = 0;
    for slot in table.iter_mut() {
        let Next::Found(found) = next_record(&file[at..]) else {
            return;
        };
        *slot = slot_of(found.answer);
        at += found.size.0;
    }
}

// 16 leaves the table as it was, 15 the slots from its place on. (By number, as C's struct has it.)
#[tactic(auto, unfolding(crate::specs::Day::fills, rules::specs::Refusal::number))]
fn fills_slots(answer: Result<Records, DayRefusal>) -> bool
    ensures { result ≡ fills answer }
{
    match answer {
        Ok(_) => true,
        Err(refusal) => refusal.number != Cause::TooManyRecords.number(),
    }
}

// Reads the file's sections, a slot of the table for each, and answers how many records there are; 16 where they are
// more than the slots or than 256, and the table stays; then 15 at the first bad or cut record, and the slots before it are
// filled. Slots behind the last answer stay.
pub fn read_day(file: &[u8], table: &mut [Slot]) -> Result<Records, DayRefusal>
    ensures value { result ≡ day_answer (records_of file.now) (length table.old) }
    ensures table_after { table.new ≡ day_table (records_of file.now) table.old }
{
    let answer = count_records(file, Records(table.len()));
    if fills_slots(answer) {
        fill(file, table);
    }
    answer
}
