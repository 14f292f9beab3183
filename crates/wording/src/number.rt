// A number as people write it: digits with a sign and a point.
ghost use Rattle.std.specs.Prelude.{◌≡◌, Bool, cond};
ghost use Prim.Native.Nat.{◌+◌, ◌*◌, ◌^◌, ◌≤◌, ◌<◌, compare};
ghost use Rattle.std.specs.Float.{binary32};
ghost use Rattle.std.specs.Float.Ieee.{nearest, of_bits, round};
ghost use Rattle.wording.specs.Number.{number_in, is_written, float_of, unsigned_in, unread, with_digit, with_point, with_byte, scanned};

use base::number::float32;
use std::cmp::Ordering;

// As written: all digits as one whole number, and how many of them stand after the point.
#[derive(Clone, Copy)]
pub struct Decimal {
    pub negative: bool,
    pub digits: u64,
    pub places: u32,
}

impl Decimal {
    // Whether a word can be read as it: at most 18 digits, at most 18 of them after the point.
    fn is_written(self) -> bool
        ensures { result ≡ is_written self }
    {
        self.digits < 1000000000000000000 && self.places <= 18
    }
}

// What is read of a number: its digits, how many of them stand after the point, whether there is
// any, and whether there was a point.
#[derive(Clone, Copy)]
struct Scan {
    digits: u64,
    places: u32,
    any: bool,
    point: bool,
}

// Nothing is read yet.
const UNREAD: Scan = Scan {
    digits: 0,
    places: 0,
    any: false,
    point: false,
};

impl Scan {
    // With the digit x after what is read, unless that is too many.
    fn with_digit(self, x: u8) -> Option<Scan>
        requires { x ≤ 9 }
        ensures { result ≡ with_digit self x }
    {
        if self.digits >= 100000000000000000 || self.places >= 18 {
            return None;
        }
        Some(Scan {
            digits: 10 * self.digits + u64::from(x),
            places: self.places + u32::from(self.point),
            any: true,
            ..self
        })
    }

    // With a point after what is read, unless there was one.
    fn with_point(self) -> Option<Scan>
        ensures { result ≡ with_point self }
    {
        if self.point {
            return None;
        }
        Some(Scan {
            point: true,
            ..self
        })
    }

    // With the byte c after what is read: a digit or the point.
    fn with_byte(self, c: u8) -> Option<Scan>
        ensures { result ≡ with_byte self c }
    {
        match c {
            b'0'..=b'9' => self.with_digit(c - b'0'),
            b'.' => self.with_point(),
            _ => None,
        }
    }
}

// What is read of bytes that make a number so far.
fn scanned(word: &[u8]) -> Option<Scan>
    ensures { result ≡ scanned unread word.now }
{
    let mut s = UNREAD;
    for c in word {
        s = s.with_byte(*c)?;
    }
    Some(s)
}

// The number without its sign: there has to be a digit.
fn unsigned_in(negative: bool, word: &[u8]) -> Option<Decimal>
    ensures { result ≡ unsigned_in negative word.now }
{
    let s = scanned(word)?;
    s.any.then_some(Decimal {
        negative,
        digits: s.digits,
        places: s.places,
    })
}

// What a word is as a number: digits, one at least and at most 18, zeros in front not counted, with
// a point and a sign or none.
pub fn number_in(word: &[u8]) -> Option<Decimal>
    ensures { result ≡ number_in word.now }
{
    match word {
        [b'-', digits @ ..] => unsigned_in(true, digits),
        [b'+', digits @ ..] => unsigned_in(false, digits),
        digits => unsigned_in(false, digits),
    }
}

// q + rest / by to the nearest whole number, a tie to the even one.
fn to_nearest(q: u64, rest: u64, by: u64) -> u64
    requires { (q < 2 ^ 24) × (rest < 2 ^ 63) }
    ensures { result ≡ nearest q (compare (rest * 2) by) }
{
    match (rest * 2).cmp(&by) {
        Ordering::Less => q,
        Ordering::Greater => q + 1,
        Ordering::Equal => q + q % 2,
    }
}

// The bits of the `f32` nearest to n / d, for either sign.
fn magnitude(n: u64, d: u64) -> u64
    requires { (n < 10 ^ 18) × (0 < d) × (d ≤ 10 ^ 18) }
    ensures bound { result < 2 ^ 31 }
    ensures value { (s : Bool) → of_bits binary32 (cond s (2 ^ 31) 0 + result) ≡ round binary32 s n d }
{
    if n == 0 {
        return 0;
    }
    // Two `while`s that count no index, but double until the quotient has its digits.
    // n / d is n / by times 2^k of the smallest `f32`: `by` is doubled until n / by has no more
    // than the 24 binary digits that are kept,
    let mut by = d;
    let mut k: u64 = 149;
    while n / by >= 0x100_0000 {
        by *= 2;
        k += 1;
    }
    // and what it is, q + rest / by, is doubled until it has as many.
    let mut q = n / by;
    let mut rest = n % by;
    while q < 0x80_0000 {
        q *= 2;
        rest *= 2;
        if rest >= by {
            q += 1;
            rest -= by;
        }
        k -= 1;
    }
    k * 0x80_0000 + to_nearest(q, rest, by)
}

// The sign's bit.
fn sign_bit(negative: bool) -> u64
    ensures { result ≡ cond negative (2 ^ 31) 0 }
{
    if negative { 0x8000_0000 } else { 0 }
}

// The `f32` nearest to a decimal, a tie to the even one, -0 kept; a NaN for more digits than a word
// is read with.
pub fn float_of(d: Decimal) -> f32
    ensures { result ≡ float_of d }
{
    if !d.is_written() {
        return f32::NAN;
    }
    let bits = sign_bit(d.negative) + magnitude(d.digits, 10u64.pow(d.places));
    float32(bits as u32)
}
