// Why a call is refused: a name for each refusal of documents 01 and 02, with its number and place.
ghost use Rattle.std.specs.Prelude.{◌≡◌};
ghost use Rattle.base.specs.Refusal.{pair_of, report_of, verdict_report, refuse_unless};

// Of a field that stands more than once, and of a place in a file or the number of a map or of a
// pair, the case carries which.
#[derive(Clone, Copy)]
pub enum Refusal {
    Month,
    Sunspot,
    Hour,
    Latitude(u32),
    Longitude(u32),
    Factor(u32),
    Flag,
    // The F2 record is too short, or the file or part of such records ends before it does.
    Record,
    // Four bytes of the month file, at this place, are not there.
    Ended(u32),
    // The marker at this place of the month file is wrong.
    Marker(u32),
    // The word at this place of the F2 record, or of the file of such records, is no finite number.
    RecordWord(u32),
    // The word at this place of a table of the month file is no finite number.
    MonthWord(u32),
    // The index table is bad in this map.
    Index(u32),
    Figures,
    Table,
    Desk,
    // A draft is open already.
    Drafted,
    NoDraft,
    Stale,
    NothingEarlier,
    // The F2 model's word is neither 0 nor 1.
    Model,
    // This pair of a year file's directory, 1 to 14, is not wholly there or breaks a rule.
    Year(u32),
}

// The documents' number of a refusal, and its place; 0 and 0 where nothing is refused, as the C
// interface has it.
#[derive(Clone, Copy)]
pub struct Report(pub u32, pub u32);

impl Refusal {
    // The number of a refusal with its place: a field's number, a byte's place, a map's or a pair's
    // number; all others have place 0.
    pub fn report(self) -> Report
        ensures { pair_of result ≡ report_of self }
    {
        match self {
            Refusal::Month => Report(1, 1),
            Refusal::Sunspot => Report(2, 2),
            Refusal::Hour => Report(3, 3),
            Refusal::Latitude(field) => Report(4, field),
            Refusal::Longitude(field) => Report(5, field),
            Refusal::Factor(field) => Report(6, field),
            Refusal::Flag => Report(7, 8),
            Refusal::Record => Report(8, 0),
            Refusal::Ended(at) => Report(9, at),
            Refusal::Marker(at) => Report(10, at),
            Refusal::RecordWord(at) => Report(23, at),
            Refusal::MonthWord(at) => Report(23, at),
            Refusal::Index(map) => Report(11, map),
            Refusal::Figures => Report(12, 0),
            Refusal::Table => Report(13, 0),
            Refusal::Desk => Report(14, 0),
            Refusal::Drafted => Report(15, 0),
            Refusal::NoDraft => Report(16, 0),
            Refusal::Stale => Report(17, 0),
            Refusal::NothingEarlier => Report(18, 0),
            Refusal::Model => Report(7, 15),
            Refusal::Year(pair) => Report(19, pair),
        }
    }

    // The number of a refusal, 1 to 19 or 23.
    pub fn number(self) -> u32
        ensures { result ≡ (report_of self).0 }
    {
        self.report().0
    }

    // The place of a refusal, as `report` has it.
    pub fn place(self) -> u32
        ensures { result ≡ (report_of self).1 }
    {
        self.report().1
    }
}

// The answer of a check: nothing more to say, or why it refuses.
pub type Verdict = Result<(), Refusal>;

// A verdict's number and place: the refusal's, or 0 and 0 where nothing is refused.
impl From<Verdict> for Report {
    fn from(verdict: Verdict) -> Report
        ensures { pair_of result ≡ verdict_report verdict }
    {
        match verdict {
            Ok(()) => Report(0, 0),
            Err(why) => why.report(),
        }
    }
}

// Accepted where `good` is true, else refused as `why` says.
pub fn refuse_unless(good: bool, why: Refusal) -> Verdict
    ensures { result ≡ refuse_unless good why }
{
    if good { Ok(()) } else { Err(why) }
}
