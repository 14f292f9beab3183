// What is wrong with a line of a journal, in words for people.
ghost use Rattle.std.specs.Prelude.{◌≡◌, ◌++◌, ◌+◌, ◌≤◌, ◌<◌, length, take};
ghost use Rattle.io.specs.Counts.{IsPrefixLen};
ghost use Rattle.wording.specs.Token.{ascii, name_of};
ghost use Rattle.listing.specs.Text.{Puts, HasRoom, decimal_of};
ghost use Rattle.listing.specs.Fault.{wanted_text, fault_text, again_text, unopened_text};

use crate::spoken::{SPOKEN, put_line_mark};
use crate::text::Text;
use crate::written::put_count;
use wording::line::{Fault, Wanted};
use wording::token::Word;

// Puts the name of a word.
fn put_name(text: &mut Text, word: Word)
    requires { HasRoom text.old 7 }
    ensures text { Puts text.old (ascii (name_of word)) text.new }
    ensures bound { text.new.len ≤ text.old.len + 7 }
{
    text.put(word.name());
}

fn put_should_be(text: &mut Text, what: &[u8])
    requires { HasRoom text.old (10 + length what.now) }
    ensures { Puts text.old (ascii "should be " ++ what.now) text.new }
{
    text.put(b"should be ");
    text.put(what);
}

// Puts what is said of the word that does not fit.
#[tactic(auto, unfolding(crate::specs::Fault::wanted_text))]
fn put_wanted(text: &mut Text, w: Wanted)
    requires { HasRoom text.old 96 }
    ensures text { Puts text.old (wanted_text w) text.new }
    ensures bound { text.new.len ≤ text.old.len + 96 }
{
    match w {
        Wanted::Start => put_should_be(text, b"open, show, take back or a desk's number"),
        Wanted::Deed => put_should_be(
            text,
            b"begin, sunspot, hour, month, model, path, factors, pole, show, commit or cancel",
        ),
        Wanted::Word(word) => {
            text.put(b"should be ");
            put_name(text, word);
        }
        Wanted::Number => put_should_be(
            text,
            b"a number: digits with sign and point, at most 18 of them",
        ),
        Wanted::Whole => put_should_be(text, b"a whole number below 4294967296"),
        Wanted::Model => put_should_be(text, b"ccir or ursi"),
        Wanted::Nothing => text.put(b"is one too many"),
    }
}

// Puts the number of the line.
#[tactic(auto, using(crate::proofs::Sizes::sizes))]
fn put_line_number(text: &mut Text, line: u64)
    requires { HasRoom text.old 25 }
    ensures text { Puts text.old (ascii "line " ++ decimal_of line) text.new }
    ensures bound { text.new.len ≤ text.old.len + 25 }
{
    text.put(b"line ");
    text.put_number(line);
}

// Writes what is wrong with a line, and gives its length in bytes.
#[tactic(auto, unfolding(crate::specs::Fault::fault_text))]
pub fn fault_text(line: u64, f: Fault, out: &mut [u8; SPOKEN]) -> usize
    ensures text { take result out.new ≡ fault_text line f }
    ensures count { IsPrefixLen result out.new }
{
    let mut text = Text::new(out);
    put_line_number(&mut text, line);
    text.put(b": no call: word ");
    put_count(&mut text, f.word);
    text.put(b" ");
    put_wanted(&mut text, f.wanted);
    text.put(b"\n");
    text.len()
}

// Writes that an open stands where the worksheet is open, and gives the length in bytes.
#[tactic(auto, using(crate::proofs::Sizes::sizes), unfolding(crate::specs::Fault::again_text))]
pub fn again_text(line: u64, out: &mut [u8; SPOKEN]) -> usize
    ensures text { take result out.new ≡ again_text line }
    ensures count { IsPrefixLen result out.new }
{
    let mut text = Text::new(out);
    put_line_mark(&mut text, line);
    text.put(b"no call: the worksheet is open already\n");
    text.len()
}

// Writes that a call stands before the open, and gives the length in bytes.
#[tactic(auto, using(crate::proofs::Sizes::sizes), unfolding(crate::specs::Fault::unopened_text))]
pub fn unopened_text(line: u64, out: &mut [u8; SPOKEN]) -> usize
    ensures text { take result out.new ≡ unopened_text line }
    ensures count { IsPrefixLen result out.new }
{
    let mut text = Text::new(out);
    put_line_mark(&mut text, line);
    text.put(b"no call: a journal begins with open\n");
    text.len()
}
