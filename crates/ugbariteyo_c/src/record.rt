// The next record of a day's file, as the listing reads it.
ghost use Rattle.std.specs.Prelude.{◌≡◌};
ghost use Rattle.records.specs.Record.{next_record};
ghost use Rattle.ugbariteyo.specs.Record.{record_answer, SectionJudged};

use ugbariteyo::record::UgbRecord;

#[unsafe(no_mangle)]
pub extern "C" fn ugb_next_record(s: &[u8]) -> UgbRecord
    ensures value { result ≡ record_answer (next_record s.now) }
    ensures section_judged { SectionJudged s.now result }
{
    ugbariteyo::record::ugb_next_record(s)
}
