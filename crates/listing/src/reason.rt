// Why something is refused, in words for people.
ghost use Rattle.std.specs.Prelude.{◌≡◌, ◌+◌, ◌≤◌, ◌<◌, length};
ghost use Rattle.wording.specs.Token.{ascii};
ghost use Rattle.listing.specs.Text.{Puts, HasRoom};
ghost use Rattle.listing.specs.Reason.{reason_of, refused_words};

use crate::text::Text;
use base::refusal::Refusal;

// The words of a reason.
fn reason(why: Refusal) -> &'static [u8]
    ensures { result.now ≡ ascii (reason_of why) }
{
    match why {
        Refusal::Month => b"the month is not 1 to 12",
        Refusal::Sunspot => b"the sunspot number is not 0 to 300",
        Refusal::Hour => b"the hour is not 0 to 24",
        Refusal::Latitude(_) => b"a latitude is not -90 to 90 degrees",
        Refusal::Longitude(_) => b"a longitude is not -180 to 180 degrees",
        Refusal::Factor(_) => b"a factor is not 0.125 to 8",
        Refusal::Flag => b"the long-path flag is neither 0 nor 1",
        Refusal::Model => b"the F2 model is neither CCIR nor URSI",
        Refusal::Record => b"the F2 record of the month is not whole",
        Refusal::Ended(_) => b"the month file ends too early",
        Refusal::Marker(_) => b"the month file has a wrong marker at this byte",
        Refusal::RecordWord(_) => b"the F2 planes have no finite number at this byte",
        Refusal::MonthWord(_) => b"the month file has no finite number at this byte",
        Refusal::Index(_) => b"the month file has a bad index table for this map",
        Refusal::Figures => b"the buffer has not 151 numbers",
        Refusal::Table => b"there is no such table",
        Refusal::Desk => b"there is no such desk",
        Refusal::Drafted => b"the desk has a draft already",
        Refusal::NoDraft => b"the desk has no draft",
        Refusal::Stale => b"the worksheet has moved since the draft began",
        Refusal::NothingEarlier => b"there is nothing to take back",
        Refusal::Year(_) => b"the year file has a bad directory at this pair",
    }
}

// Puts `refused`, number, place and the reason.
#[tactic(auto, using(crate::proofs::Sizes::sizes), unfolding(crate::specs::Reason::refused_words))]
pub(crate) fn put_refused(text: &mut Text, why: Refusal)
    requires { HasRoom text.old 80 }
    ensures { Puts text.old (refused_words why) text.new }
{
    text.put(b"refused ");
    text.put_number(why.number() as u64);
    text.put(b" ");
    text.put_number(why.place() as u64);
    text.put(b": ");
    text.put(reason(why));
}
