// What can be shown from a year file, for people: a line for each month and model.
ghost use Rattle.std.specs.Prelude.{◌≡◌, ◌+◌, ◌≤◌, length, take};
ghost use Rattle.io.specs.Counts.{IsPrefixLen};
ghost use Rattle.wording.specs.Token.{ascii};
ghost use Rattle.listing.specs.Text.{Puts, HasRoom};
ghost use Rattle.listing.specs.Survey.{model_name, found_text, refused_line, survey_line};

use crate::reason::put_refused;
use crate::text::Text;
use base::refusal::{Refusal, Verdict};
use worksheet::showing::year_files_check;

// At least the bytes of the longest line.
pub const LINE: usize = 128;

pub(crate) fn model_name(model: u32) -> &'static [u8]
    ensures { result.now ≡ ascii (model_name model) }
{
    match model {
        0 => b"CCIR",
        1 => b"URSI",
        _ => b"no model",
    }
}

fn put_found(text: &mut Text, v: Verdict)
    requires { HasRoom text.old 80 }
    ensures { Puts text.old (found_text v) text.new }
{
    match v {
        Ok(()) => text.put(b"can be shown"),
        Err(why) => put_refused(text, why),
    }
}

// Writes the line of a refusal with its reason, and gives its length in bytes.
#[tactic(auto, using(crate::proofs::Sizes::sizes), unfolding(crate::specs::Survey::refused_line))]
pub fn refused_line(why: Refusal, out: &mut [u8; LINE]) -> usize
    ensures text { take result out.new ≡ refused_line why }
    ensures count { IsPrefixLen result out.new }
{
    let mut text = Text::new(out);
    put_refused(&mut text, why);
    text.put(b"\n");
    text.len()
}

// Writes the line of a month and a model: that they can be shown from the year file, or what a
// showing of them would be refused by, once its desk, its other fields and its buffer pass. Gives its
// length in bytes.
#[tactic(auto, using(crate::proofs::Sizes::sizes), unfolding(crate::specs::Survey::survey_line))]
pub fn survey_line(year: &[u8], month: u32, model: u32, out: &mut [u8; LINE]) -> usize
    ensures text { take result out.new ≡ survey_line year.now month model }
    ensures count { IsPrefixLen result out.new }
{
    let v = year_files_check(year, month, model);
    let mut text = Text::new(out);
    text.put(b"month ");
    text.put_number(month as u64);
    text.put(b", ");
    text.put(model_name(model));
    text.put(b": ");
    put_found(&mut text, v);
    text.put(b"\n");
    text.len()
}
