// The lines of an audit's page, for people: its title, where a field of the sheet comes from, and
// what became of a draft that is not in it.
ghost use Rattle.std.specs.Prelude.{◌≡◌, ◌++◌, ◌+◌, ◌≤◌, length, take, Some};
ghost use Rattle.io.specs.Counts.{IsPrefixLen};
ghost use Rattle.listing.specs.declared.account.Came.TheVariants.{Set};
ghost use Rattle.listing.specs.declared.account.Became.TheVariants.{TakenBack};
ghost use Rattle.listing.specs.Text.{Puts, HasRoom};
ghost use Rattle.listing.specs.Account.{at_line, came_words, came_text, came_line, became_words, balked_words, draft_line, title_text};

use crate::columns::COLUMNS;
use crate::fields::put_field;
use crate::text::Text;
use maps::inputs::Inputs;

// At least the bytes of the longest line, and room for any other part of a page.
pub const ACCOUNT: usize = COLUMNS;

// Where a field comes from. Numbers of lines are those of the journal's text.
#[derive(Clone, Copy)]
pub enum Came {
    // The open at this line.
    Opened(u64),
    // A change by this desk at the first line, settled by the commit at the second.
    Set(u32, u64, u64),
}

// What became of a draft.
#[derive(Clone, Copy)]
pub enum Became {
    // Committed at the first line, taken back at the second.
    TakenBack(u64, u64),
    Cancelled(u64),
    // Open when the worksheet was shown.
    Never,
}

#[tactic(auto, using(crate::proofs::Sizes::sizes), unfolding(crate::specs::Account::at_line))]
fn put_at_line(text: &mut Text, line: u64)
    requires { HasRoom text.old 29 }
    ensures { Puts text.old (at_line line) text.new }
{
    text.put(b" at line ");
    text.put_number(line);
}

// Puts what was done and the line at which it was.
fn put_done(text: &mut Text, done: &[u8], line: u64)
    requires { HasRoom text.old (length done.now + 29) }
    ensures { Puts text.old (done.now ++ at_line line) text.new }
{
    text.put(done);
    put_at_line(text, line);
}

#[tactic(auto, using(crate::proofs::Sizes::sizes), unfolding(crate::specs::Account::came_words))]
fn put_set(text: &mut Text, desk: u32, line: u64, settled: u64)
    requires { HasRoom text.old 99 }
    ensures { Puts text.old (came_words (Set desk line settled)) text.new }
{
    text.put(b"set by desk ");
    text.put_number(desk as u64);
    put_at_line(text, line);
    put_done(text, b", settled", settled);
}

#[tactic(auto, unfolding(crate::specs::Account::came_words))]
fn put_came(text: &mut Text, came: Came)
    requires { HasRoom text.old 99 }
    ensures { Puts text.old (came_words came) text.new }
{
    match came {
        Came::Opened(line) => put_done(text, b"opened", line),
        Came::Set(desk, line, settled) => put_set(text, desk, line, settled),
    }
}

// Puts the line of field k.
#[tactic(auto, using(crate::proofs::Sizes::sizes), unfolding(crate::specs::Account::came_text))]
fn put_came_line(text: &mut Text, i: Inputs, k: u32, came: Came)
    requires le_k { 1 ≤ k }
    requires k_bound { k ≤ 15 }
    requires at_in_bounds { HasRoom text.old 181 }
    ensures { Puts text.old (came_text i k came) text.new }
{
    put_field(text, i, k);
    text.put(b"  ");
    put_came(text, came);
    text.put(b"\n");
}

#[tactic(auto, using(crate::proofs::Sizes::sizes), unfolding(crate::specs::Account::became_words))]
fn put_taken_back(text: &mut Text, committed: u64, back: u64)
    requires { HasRoom text.old 79 }
    ensures { Puts text.old (became_words (TakenBack committed back)) text.new }
{
    put_done(text, b"committed", committed);
    put_done(text, b", taken back", back);
}

#[tactic(auto, unfolding(crate::specs::Account::became_words))]
fn put_became(text: &mut Text, became: Became)
    requires { HasRoom text.old 79 }
    ensures { Puts text.old (became_words became) text.new }
{
    match became {
        Became::TakenBack(committed, back) => put_taken_back(text, committed, back),
        Became::Cancelled(line) => put_done(text, b"cancelled", line),
        Became::Never => text.put(b"not committed by then"),
    }
}

#[tactic(auto, using(crate::proofs::Sizes::sizes), unfolding(crate::specs::Account::balked_words))]
fn put_refusal_line(text: &mut Text, line: u64)
    requires { HasRoom text.old 38 }
    ensures { Puts text.old (balked_words (Some line)) text.new }
{
    put_done(text, b"refused", line);
    text.put(b", ");
}

#[tactic(auto, unfolding(crate::specs::Account::balked_words))]
fn put_balked(text: &mut Text, balked: Option<u64>)
    requires { HasRoom text.old 38 }
    ensures { Puts text.old (balked_words balked) text.new }
{
    if let Some(line) = balked {
        put_refusal_line(text, line);
    }
}

// Writes the line of field k with where it comes from, or nothing where k is not 1 to 15, and gives
// its length in bytes.
#[tactic(auto, using(crate::proofs::Sizes::sizes), unfolding(crate::specs::Account::came_line))]
pub fn came_line(i: Inputs, k: u32, came: Came, out: &mut [u8; ACCOUNT]) -> usize
    ensures text { take result out.new ≡ came_line i k came }
    ensures count { IsPrefixLen result out.new }
{
    let mut text = Text::new(out);
    if 1 <= k && k <= 15 {
        put_came_line(&mut text, i, k, came);
    }
    text.len()
}

// Writes the line of a draft that is not in the sheet, and gives its length in bytes.
#[tactic(auto, using(crate::proofs::Sizes::sizes), unfolding(crate::specs::Account::draft_line))]
pub fn draft_line(
    desk: u32,
    begun: u64,
    balked: Option<u64>,
    became: Became,
    out: &mut [u8; ACCOUNT],
) -> usize
    ensures text { take result out.new ≡ draft_line desk begun balked became }
    ensures count { IsPrefixLen result out.new }
{
    let mut text = Text::new(out);
    text.put(b"desk ");
    text.put_number(desk as u64);
    put_done(&mut text, b", begun", begun);
    text.put(b": ");
    put_balked(&mut text, balked);
    put_became(&mut text, became);
    text.put(b"\n");
    text.len()
}

// Writes the page's first line and the heading of its fields, and gives their length in bytes.
#[tactic(auto, using(crate::proofs::Sizes::sizes), unfolding(crate::specs::Account::title_text))]
pub fn title_text(line: u64, out: &mut [u8; ACCOUNT]) -> usize
    ensures text { take result out.new ≡ title_text line }
    ensures count { IsPrefixLen result out.new }
{
    let mut text = Text::new(out);
    text.put(b"audit of line ");
    text.put_number(line);
    text.put(b": the worksheet as it was shown there\n\nwhere its inputs come from:\n");
    text.len()
}
