// A call as a run of little-endian words: the operation's number, the desk (take-back has none) and
// the numbers of a change.
ghost use Rattle.std.specs.Prelude.{◌≡◌, ◌≤◌};
ghost use Rattle.listing.specs.Calls.{path_edit, psc_edit, pole_edit, change_in, pair_operation, operation_in, size_of, call_in};

use base::angle::Degrees;
use base::month_file::{MONTH_FILE, RECORD};
use base::words::{float, word};
use maps::inputs::{FIELD_BYTES, Factors, MagneticPole, Route, SHEET_BYTES};
use worksheet::inputs::Edit;
use worksheet::journal::Call;
use worksheet::showing::Lent;

// The first byte of the first call of a journal over a pair: before it stand the words, the record
// and the month file.
pub const START: u32 = (SHEET_BYTES + RECORD + MONTH_FILE) as u32;

// The same over a year file without its bytes: before it stand the words and its length.
pub const YEAR_START: u32 = (FIELD_BYTES + 4) as u32;

// What is read of an input. Three states and no Result of an Option: `call_in` is public, and the
// definition of that name gives one of them.
#[derive(Clone, Copy)]
pub enum Read {
    // The input has ended.
    End,
    // An unknown operation, or a call cut short.
    Bad,
    Call(Call),
}

// By the operation's number, of which 0 is none. Operations stay numbers: an input has them so, and
// the public `operation_in`, `size_of` and `call_in` take them.
const SIZES: [usize; 13] = [0, 4, 8, 8, 24, 20, 12, 4, 4, 0, 4, 8, 8];

// An operation's number as a journal knows it: over a pair of files every number above 10
// counts as 0, which is none.
pub fn operation_in(lent: Lent, operation: u32) -> u32
    ensures { result ≡ operation_in lent operation }
{
    match lent {
        Lent::Pair => pair_operation(operation),
        Lent::Year => operation,
    }
}

fn pair_operation(operation: u32) -> u32
    ensures { result ≡ pair_operation operation }
{
    if 10 < operation { 0 } else { operation }
}

// How many bytes follow the operation's word; none where it is unknown.
pub fn size_of(operation: u32) -> usize
    ensures answer { result ≡ size_of operation }
    ensures bound { result ≤ 24 }
{
    if 12 < operation {
        return 0;
    }
    SIZES[operation as usize]
}

fn path_in(s: &[u8]) -> Edit
    ensures { result ≡ path_edit s.now }
{
    Edit::Path(Route {
        tlat: Degrees(float(s, 4)),
        tlong: Degrees(float(s, 8)),
        rlat: Degrees(float(s, 12)),
        rlong: Degrees(float(s, 16)),
        long_path: word(s, 20),
    })
}

fn psc_in(s: &[u8]) -> Edit
    ensures { result ≡ psc_edit s.now }
{
    Edit::Psc(Factors {
        e: float(s, 4),
        f1: float(s, 8),
        f2: float(s, 12),
        es: float(s, 16),
    })
}

fn pole_in(s: &[u8]) -> Edit
    ensures { result ≡ pole_edit s.now }
{
    Edit::Pole(MagneticPole {
        lat: Degrees(float(s, 4)),
        lon: Degrees(float(s, 8)),
    })
}

fn change_in(s: &[u8], e: Edit) -> Read
    ensures { result ≡ change_in s.now e }
{
    Read::Call(Call::Change(word(s, 0), e))
}

// The call of an operation, from the bytes after its word, of which one that is not there counts as
// 0; `Bad` where the operation is unknown.
pub fn call_in(operation: u32, s: &[u8]) -> Read
    ensures { result ≡ call_in operation s.now }
{
    match operation {
        1 => Read::Call(Call::Begin(word(s, 0))),
        2 => change_in(s, Edit::Sunspot(float(s, 4))),
        3 => change_in(s, Edit::Hour(float(s, 4))),
        4 => change_in(s, path_in(s)),
        5 => change_in(s, psc_in(s)),
        6 => change_in(s, pole_in(s)),
        7 => Read::Call(Call::Commit(word(s, 0))),
        8 => Read::Call(Call::Cancel(word(s, 0))),
        9 => Read::Call(Call::TakeBack),
        10 => Read::Call(Call::Show(word(s, 0))),
        11 => change_in(s, Edit::Month(word(s, 4))),
        12 => change_in(s, Edit::Model(word(s, 4))),
        _ => Read::Bad,
    }
}
