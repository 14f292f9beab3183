// The 15 fields of a sheet in words, for people who read no hexadecimal digits.
ghost use Rattle.std.specs.Prelude.{◌≡◌, ◌+◌, ◌-◌, ◌≤◌, length, get_or, take};
ghost use Rattle.std.specs.Float.{nan};
ghost use Rattle.io.specs.Counts.{IsPrefixLen};
ghost use Rattle.wording.specs.Token.{ascii};
ghost use Rattle.listing.specs.Text.{Puts, HasRoom, decimal_of};
ghost use Rattle.listing.specs.Page.{unit_text};
ghost use Rattle.listing.specs.Survey.{model_name};
ghost use Rattle.listing.specs.Fields.{at_right, field_row, flag_name, field_value, field_name, field_text, field_line, fields_words, singles};

use crate::decimal::put_float;
use crate::survey::model_name;
use crate::text::Text;
use crate::unit::Unit;
use maps::inputs::{FIELDS, Inputs};

// The fields by name, in 24 letters, and below by unit.
const FIELD_NAMES: [[u8; 24]; FIELDS] = [
    *b"month                   ",
    *b"sunspot number          ",
    *b"hour                    ",
    *b"transmitter latitude    ",
    *b"transmitter longitude   ",
    *b"receiver latitude       ",
    *b"receiver longitude      ",
    *b"long way round          ",
    *b"factor E                ",
    *b"factor F1               ",
    *b"factor F2               ",
    *b"factor Es               ",
    *b"pole latitude           ",
    *b"pole longitude          ",
    *b"F2 model                ",
];

const FIELD_UNITS: [Unit; FIELDS] = [
    Unit::Bare,
    Unit::Bare,
    Unit::HoursGmt,
    Unit::Degrees,
    Unit::Degrees,
    Unit::Degrees,
    Unit::Degrees,
    Unit::Bare,
    Unit::Bare,
    Unit::Bare,
    Unit::Bare,
    Unit::Bare,
    Unit::Degrees,
    Unit::Degrees,
    Unit::Bare,
];

// Puts a text at the right end of 16 letters; a longer text as it is.
#[tactic(auto, unfolding(crate::specs::Fields::at_right))]
pub(crate) fn put_right(text: &mut Text, piece: &[u8])
    requires { HasRoom text.old (length (at_right piece.now)) }
    ensures { Puts text.old (at_right piece.now) text.new }
{
    let blanks = [b' '; 16];
    text.put(&blanks[..16usize.saturating_sub(piece.len())]);
    text.put(piece);
}

// Puts a whole number so.
#[tactic(auto, using(crate::proofs::Sizes::sizes))]
pub(crate) fn put_whole(text: &mut Text, n: u32)
    requires { HasRoom text.old 16 }
    ensures { Puts text.old (at_right (decimal_of n)) text.new }
{
    let mut out = [0u8; 10];
    let mut digits = Text::new(&mut out);
    digits.put_number(n as u64);
    put_right(text, digits.written());
}

fn flag_name(flag: u32) -> &'static [u8]
    ensures { result.now ≡ ascii (flag_name flag) }
{
    match flag {
        0 => b"no",
        1 => b"yes",
        _ => b"neither 0 nor 1",
    }
}

// The number of a field that is an `f32`; of any other 0.
fn single(i: Inputs, k: u32) -> f32
    requires le_k { 1 ≤ k }
    requires k_bound { k ≤ 15 }
    ensures { result ≡ get_or (singles i) (k - 1) nan }
{
    let route = i.route;
    let psc = i.psc;
    let pole = i.pole;
    let singles = [
        0.0,
        i.ssn,
        i.gmt,
        route.tlat.0,
        route.tlong.0,
        route.rlat.0,
        route.rlong.0,
        0.0,
        psc.e,
        psc.f1,
        psc.f2,
        psc.es,
        pole.lat.0,
        pole.lon.0,
        0.0,
    ];
    singles[(k - 1) as usize]
}

fn put_field_value(text: &mut Text, i: Inputs, k: u32)
    requires le_k { 1 ≤ k }
    requires k_bound { k ≤ 15 }
    requires at_in_bounds { HasRoom text.old 44 }
    ensures { Puts text.old (field_value i k) text.new }
{
    match k {
        1 => put_whole(text, i.month),
        8 => put_right(text, flag_name(i.route.long_path)),
        15 => put_right(text, model_name(i.model)),
        _ => put_float(text, single(i, k)),
    }
}

fn field_name(k: u32) -> [u8; 24]
    requires le_k { 1 ≤ k }
    requires k_bound { k ≤ 15 }
    ensures { result ≡ field_name (field_row k) }
{
    FIELD_NAMES[(k - 1) as usize]
}

// The unit after two blanks, where there is one.
fn field_unit(k: u32) -> &'static [u8]
    requires le_k { 1 ≤ k }
    requires k_bound { k ≤ 15 }
    ensures { result.now ≡ unit_text (field_row k).unit }
{
    FIELD_UNITS[(k - 1) as usize].words()
}

// Puts the line of field k, with no line feed.
#[tactic(auto, using(crate::proofs::Sizes::sizes), unfolding(crate::specs::Fields::field_text))]
pub(crate) fn put_field(text: &mut Text, i: Inputs, k: u32)
    requires le_k { 1 ≤ k }
    requires k_bound { k ≤ 15 }
    requires at_in_bounds { HasRoom text.old 79 }
    ensures { Puts text.old (field_text i k) text.new }
{
    text.put(&field_name(k));
    put_field_value(text, i, k);
    text.put(field_unit(k));
}

#[tactic(auto, using(crate::proofs::Sizes::sizes))]
fn put_field_line(text: &mut Text, i: Inputs, k: u32)
    requires le_k { 1 ≤ k }
    requires k_bound { k ≤ 15 }
    requires at_in_bounds { HasRoom text.old 80 }
    ensures { Puts text.old (field_line i k) text.new }
{
    put_field(text, i, k);
    text.put(b"\n");
}

// Puts the lines of all fields.
#[tactic(auto, using(crate::proofs::Sizes::sizes), unfolding(crate::specs::Fields::fields_words))]
pub(crate) fn put_fields_words(text: &mut Text, i: Inputs)
    requires { HasRoom text.old 1200 }
    ensures { Puts text.old (fields_words i) text.new }
{
    for k in 0..15 {
        put_field_line(text, i, k + 1);
    }
}
