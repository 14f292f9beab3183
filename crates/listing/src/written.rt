// A written call as text, as a line of a journal has it.
ghost use Rattle.std.specs.Prelude.{◌≡◌, ◌++◌, ◌+◌, ◌≤◌, length, take};
ghost use Rattle.io.specs.Counts.{IsPrefixLen};
ghost use Rattle.wording.specs.declared.written.WrittenCall.TheVariants.{Show};
ghost use Rattle.wording.specs.Number.{is_written};
ghost use Rattle.wording.specs.Token.{ascii};
ghost use Rattle.listing.specs.Text.{Puts, HasRoom, decimal_of};
ghost use Rattle.listing.specs.Written.{places_text, fraction_text, digits_text, number_text, pair_text, long_word, route_text, factors_text, pole_text, model_text, open_text, edit_text, deed_text, call_text, line_text};

use crate::columns::COLUMNS;
use crate::decimal::put_minus;
use crate::text::{Text, digit, divided};
use wording::line::Line;
use wording::number::Decimal;
use wording::written::{
    WrittenCall, WrittenEdit, WrittenFactors, WrittenInputs, WrittenPole, WrittenRoute,
};

// At least the bytes of the longest text, an open: twelve numbers of at most 40 bytes and the words.
// As large as the other parts of an audit's page, so that one buffer serves for all.
pub const WRITTEN: usize = COLUMNS;

// Whether reading can give this number.
fn is_written(d: Decimal) -> bool
    ensures { result ≡ is_written d }
{
    d.digits < 1000000000000000000 && d.places <= 18
}

// Puts the last digits of n, as many as there are places, zeros with them.
fn put_places(text: &mut Text, n: u64, places: u32)
    requires { HasRoom text.old (length (places_text n places)) }
    ensures { Puts text.old (places_text n places) text.new }
{
    for k in (0..places).rev() {
        text.push(digit(n, k));
    }
}

#[tactic(auto, using(crate::proofs::Sizes::sizes), unfolding(crate::specs::Written::fraction_text))]
fn put_fraction(text: &mut Text, d: Decimal)
    requires places_bound { d.places ≤ 18 }
    requires at_in_bounds { HasRoom text.old 19 }
    ensures text { Puts text.old (fraction_text d) text.new }
    ensures bound { text.new.len ≤ text.old.len + 19 }
{
    if d.places > 0 {
        text.put(b".");
        put_places(text, d.digits, d.places);
    }
}

#[tactic(auto, using(crate::proofs::Sizes::sizes), unfolding(crate::specs::Written::digits_text))]
fn put_digits(text: &mut Text, d: Decimal)
    requires places_bound { d.places ≤ 18 }
    requires at_in_bounds { HasRoom text.old 40 }
    ensures text { Puts text.old (digits_text d) text.new }
    ensures bound { text.new.len ≤ text.old.len + 40 }
{
    let whole = divided(d.digits, 10, d.places);
    put_minus(text, d.negative);
    text.put_number(whole);
    put_fraction(text, d);
}

#[tactic(auto, using(crate::proofs::Sizes::sizes), unfolding(crate::specs::Written::number_text))]
fn put_decimal(text: &mut Text, d: Decimal)
    requires { HasRoom text.old 40 }
    ensures text { Puts text.old (number_text d) text.new }
    ensures bound { text.new.len ≤ text.old.len + 40 }
{
    if is_written(d) {
        put_digits(text, d);
    } else {
        text.put(b"no number");
    }
}

// Puts a whole number of at most ten digits, as every u32 is.
#[tactic(auto, using(crate::proofs::Sizes::sizes))]
pub(crate) fn put_count(text: &mut Text, n: u32)
    requires { HasRoom text.old 10 }
    ensures text { Puts text.old (decimal_of n) text.new }
    ensures bound { text.new.len ≤ text.old.len + 10 }
{
    text.put_number(n as u64);
}

#[tactic(auto, unfolding(crate::specs::Written::pair_text))]
fn put_pair(text: &mut Text, a: Decimal, b: Decimal)
    requires { HasRoom text.old 81 }
    ensures text { Puts text.old (pair_text a b) text.new }
    ensures bound { text.new.len ≤ text.old.len + 81 }
{
    put_decimal(text, a);
    text.put(b" ");
    put_decimal(text, b);
}

// Puts the last word of a path that goes the long way round.
#[tactic(auto, using(crate::proofs::Sizes::sizes), unfolding(crate::specs::Written::long_word))]
fn put_long(text: &mut Text, flag: u32)
    requires { HasRoom text.old 5 }
    ensures text { Puts text.old (long_word flag) text.new }
    ensures bound { text.new.len ≤ text.old.len + 5 }
{
    text.put_if(flag != 0, b" long");
}

#[tactic(auto, using(crate::proofs::Sizes::sizes), unfolding(crate::specs::Written::route_text))]
fn put_route(text: &mut Text, p: WrittenRoute)
    requires { HasRoom text.old 176 }
    ensures text { Puts text.old (route_text p) text.new }
    ensures bound { text.new.len ≤ text.old.len + 176 }
{
    text.put(b"from ");
    put_pair(text, p.tlat, p.tlong);
    text.put(b" to ");
    put_pair(text, p.rlat, p.rlong);
    put_long(text, p.long_path);
}

#[tactic(auto, unfolding(crate::specs::Written::factors_text))]
fn put_factors(text: &mut Text, p: WrittenFactors)
    requires { HasRoom text.old 171 }
    ensures text { Puts text.old (factors_text p) text.new }
    ensures bound { text.new.len ≤ text.old.len + 171 }
{
    text.put(b"factors ");
    put_pair(text, p.e, p.f1);
    text.put(b" ");
    put_pair(text, p.f2, p.es);
}

#[tactic(auto, unfolding(crate::specs::Written::pole_text))]
fn put_pole(text: &mut Text, p: WrittenPole)
    requires { HasRoom text.old 86 }
    ensures text { Puts text.old (pole_text p) text.new }
    ensures bound { text.new.len ≤ text.old.len + 86 }
{
    text.put(b"pole ");
    put_pair(text, p.lat, p.lon);
}

#[tactic(auto, using(crate::proofs::Sizes::sizes), unfolding(crate::specs::Written::model_text))]
fn put_model(text: &mut Text, model: u32)
    requires { HasRoom text.old 10 }
    ensures text { Puts text.old (model_text model) text.new }
    ensures bound { text.new.len ≤ text.old.len + 10 }
{
    text.put(b"model ");
    if model == 0 {
        text.put(b"ccir");
    } else {
        text.put(b"ursi");
    }
}

// Puts all that an open says.
#[tactic(auto, unfolding(crate::specs::Written::open_text))]
fn put_open(text: &mut Text, o: WrittenInputs)
    requires { HasRoom text.old 575 }
    ensures text { Puts text.old (open_text o) text.new }
    ensures bound { text.new.len ≤ text.old.len + 575 }
{
    text.put(b"open month ");
    put_count(text, o.month);
    text.put(b" sunspot ");
    put_decimal(text, o.ssn);
    text.put(b" hour ");
    put_decimal(text, o.gmt);
    text.put(b" ");
    put_route(text, o.route);
    text.put(b" ");
    put_factors(text, o.psc);
    text.put(b" ");
    put_pole(text, o.pole);
    text.put(b" ");
    put_model(text, o.model);
}

#[tactic(auto, unfolding(crate::specs::Written::edit_text))]
fn put_edit(text: &mut Text, e: WrittenEdit)
    requires { HasRoom text.old 181 }
    ensures text { Puts text.old (edit_text e) text.new }
    ensures bound { text.new.len ≤ text.old.len + 181 }
{
    match e {
        WrittenEdit::Sunspot(d) => {
            text.put(b"sunspot ");
            put_decimal(text, d);
        }
        WrittenEdit::Hour(d) => {
            text.put(b"hour ");
            put_decimal(text, d);
        }
        WrittenEdit::Path(p) => {
            text.put(b"path ");
            put_route(text, p);
        }
        WrittenEdit::Psc(p) => put_factors(text, p),
        WrittenEdit::Pole(p) => put_pole(text, p),
        WrittenEdit::Month(m) => {
            text.put(b"month ");
            put_count(text, m);
        }
        WrittenEdit::Model(m) => put_model(text, m),
    }
}

#[tactic(auto, unfolding(crate::specs::Written::deed_text))]
fn put_change(text: &mut Text, n: u32, e: WrittenEdit)
    requires { HasRoom text.old 192 }
    ensures text { Puts text.old (deed_text n (edit_text e)) text.new }
    ensures bound { text.new.len ≤ text.old.len + 192 }
{
    put_count(text, n);
    text.put(b" ");
    put_edit(text, e);
}

// Puts the desk's number and what it does, in one word.
#[tactic(auto, unfolding(crate::specs::Written::deed_text))]
fn put_deed(text: &mut Text, n: u32, deed: &[u8])
    requires { HasRoom text.old (11 + length deed.now) }
    ensures text { Puts text.old (deed_text n deed.now) text.new }
    ensures bound { text.new.len ≤ text.old.len + 11 + length deed.now }
{
    put_count(text, n);
    text.put(b" ");
    text.put(deed);
}

#[tactic(auto, using(crate::proofs::Sizes::sizes), unfolding(crate::specs::Written::call_text))]
fn put_show(text: &mut Text, n: u32)
    requires { HasRoom text.old 192 }
    ensures text { Puts text.old (call_text (Show n)) text.new }
    ensures bound { text.new.len ≤ text.old.len + 192 }
{
    if n == 0 {
        text.put(b"show");
    } else {
        put_deed(text, n, b"show");
    }
}

#[tactic(auto, unfolding(crate::specs::Written::call_text))]
fn put_call(text: &mut Text, c: WrittenCall)
    requires { HasRoom text.old 192 }
    ensures text { Puts text.old (call_text c) text.new }
    ensures bound { text.new.len ≤ text.old.len + 192 }
{
    match c {
        WrittenCall::Begin(n) => put_deed(text, n, b"begin"),
        WrittenCall::Change(n, e) => put_change(text, n, e),
        WrittenCall::Commit(n) => put_deed(text, n, b"commit"),
        WrittenCall::Cancel(n) => put_deed(text, n, b"cancel"),
        WrittenCall::TakeBack => text.put(b"take back"),
        WrittenCall::Show(n) => put_show(text, n),
    }
}

fn put_line(text: &mut Text, line: Line)
    requires { HasRoom text.old 576 }
    ensures { Puts text.old (line_text line) text.new }
{
    match line {
        Line::Blank => {}
        Line::Open(o) => {
            put_open(text, o);
            text.put(b"\n");
        }
        Line::Call(c) => {
            put_call(text, c);
            text.put(b"\n");
        }
        Line::Wrong(_) => {}
    }
}

// Writes a line anew, as it is kept, and gives its length in bytes; nothing for one that is no call.
pub fn line_text(line: Line, out: &mut [u8; WRITTEN]) -> usize
    ensures text { take result out.new ≡ line_text line }
    ensures count { IsPrefixLen result out.new }
{
    let mut text = Text::new(out);
    put_line(&mut text, line);
    text.len()
}
