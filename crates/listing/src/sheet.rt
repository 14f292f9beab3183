// A sheet's text from its 14 words, an F2 record and a month file, as the program `sheet` prints
// it.
ghost use Rattle.std.specs.Prelude.{◌≡◌, take};
ghost use Rattle.io.specs.Counts.{IsPrefixLen};
ghost use Rattle.listing.specs.Answer.{refusal_text};
ghost use Rattle.listing.specs.Sheet.{sheet_answer, page_for, page_answer};

use crate::answer::{ANSWER, put_refusal, sheet_text};
use crate::page::{PAGE, put_page};
use crate::text::Text;
use base::refusal::Refusal;
use maps::figures::FIGURES;
use maps::inputs::Inputs;
use worksheet::desks::sheet_opened;
use worksheet::showing::show;

// Writes the 151 lines of the worksheet that the words open, or the line of the refusal, and gives
// the length in bytes.
pub fn sheet_answer(words: &[u8], f2: &[u8], file: &[u8], out: &mut [u8; ANSWER]) -> usize
    ensures text { take result out.new ≡ sheet_answer words.now f2.now file.now }
    ensures count { IsPrefixLen result out.new }
{
    let mut figures = [0.0f32; FIGURES];
    let o = sheet_opened(words);
    let w = o.sheet;
    let shown = show(w, 0, f2, file, &mut figures);
    sheet_text(shown, &figures, out)
}

#[tactic(auto, using(crate::proofs::Sizes::sizes), unfolding(crate::specs::Sheet::page_for))]
fn page_for(
    i: Inputs,
    shown: Result<u32, Refusal>,
    figures: &[f32; FIGURES],
    out: &mut [u8; PAGE],
) -> usize
    ensures text { take result out.new ≡ page_for i shown figures.now }
    ensures count { IsPrefixLen result out.new }
{
    let mut text = Text::new(out);
    match shown {
        Ok(count) => put_page(&mut text, i, count, figures),
        Err(why) => put_refusal(&mut text, why),
    }
    text.len()
}

// Writes the page of the worksheet that the words open, or the line of the refusal, and gives the
// length in bytes.
pub fn page_answer(words: &[u8], f2: &[u8], file: &[u8], out: &mut [u8; PAGE]) -> usize
    ensures text { take result out.new ≡ page_answer words.now f2.now file.now }
    ensures count { IsPrefixLen result out.new }
{
    let mut figures = [0.0f32; FIGURES];
    let o = sheet_opened(words);
    let w = o.sheet;
    let shown = show(w, 0, f2, file, &mut figures);
    page_for(w.inputs, shown, &figures, out)
}
