// An f32 in decimal digits, six of them after the point, for a person to read.
ghost use Rattle.std.specs.Prelude.{◌≡◌, ◌+◌, ◌^◌, ◌≤◌, ◌<◌, length};
ghost use Rattle.std.specs.Float.{binary32};
ghost use Rattle.std.specs.Float.Ieee.{of_fields};
ghost use Rattle.listing.specs.Text.{Puts, HasRoom};
ghost use Rattle.listing.specs.Decimal.{nearest_of, sign_text, leading_of, text_of, minus_of, scaled_text, decimal_text};

use crate::text::{Text, digit, divided, has_digit};
use base::number;

// n / 2^s, to the nearest whole number.
fn halved(n: u64, s: u32) -> u64
    ensures { result ≡ nearest_of n (2 ^ s) }
{
    if s == 0 {
        return n;
    }
    let twice = divided(n, 2, s - 1);
    twice / 2 + twice % 2
}

fn sign(negative: bool) -> u8
    ensures { result ≡ sign_text negative }
{
    if negative { b'-' } else { b' ' }
}

// What stands before the place of 10^k.
fn leading(n: u64, negative: bool, k: u32) -> u8
    requires { k ≤ 7 }
    ensures { result ≡ leading_of n negative k }
{
    if has_digit(n, k + 1) {
        digit(n, k + 1)
    } else if has_digit(n, k) {
        sign(negative)
    } else {
        b' '
    }
}

// The digits of a number of millionths, at the end of 16 bytes: at least one before the point, and
// the sign just before the first.
fn text_of(millionths: u64, negative: bool) -> [u8; 16]
    ensures { result ≡ text_of millionths negative }
{
    // Written out, as the point and what is put before the first digit stand among the digits.
    let n = millionths / 1000000;
    [
        leading(n, negative, 7),
        leading(n, negative, 6),
        leading(n, negative, 5),
        leading(n, negative, 4),
        leading(n, negative, 3),
        leading(n, negative, 2),
        leading(n, negative, 1),
        leading(n, negative, 0),
        digit(n, 0),
        b'.',
        digit(millionths, 5),
        digit(millionths, 4),
        digit(millionths, 3),
        digit(millionths, 2),
        digit(millionths, 1),
        digit(millionths, 0),
    ]
}

// Of a number below 2^24 in size: its fraction's bits count 2^-149, or with the leading one more as
// the exponent has it.
fn small(negative: bool, exponent: u32, fraction: u32) -> [u8; 16]
    requires exponent_bound { exponent ≤ 150 }
    requires fraction_bound { fraction < 8388608 }
    ensures { result ≡ decimal_text (of_fields binary32 negative exponent fraction) }
{
    if exponent == 0 {
        return text_of(halved((fraction as u64) * 1000000, 149), negative);
    }
    text_of(
        halved((8388608 + fraction as u64) * 1000000, 150 - exponent),
        negative,
    )
}

// Puts a minus sign, or nothing.
#[tactic(auto, using(crate::proofs::Sizes::sizes), unfolding(crate::specs::Decimal::minus_of))]
pub(crate) fn put_minus(text: &mut Text, negative: bool)
    requires { HasRoom text.old 1 }
    ensures { Puts text.old (minus_of negative) text.new }
{
    text.put_if(negative, b"-");
}

// A number of 2^24 or more in size is a whole number: its 24 bits times a power of two.
#[tactic(auto, using(crate::proofs::Sizes::sizes), unfolding(crate::specs::Decimal::scaled_text))]
fn put_scaled(text: &mut Text, negative: bool, q: u32, k: u32)
    requires { HasRoom text.old 44 }
    ensures { Puts text.old (scaled_text negative q k) text.new }
{
    put_minus(text, negative);
    text.put_number(q as u64);
    text.put(b"*2^");
    text.put_number(k as u64);
}

// The number whose bits these are: the sign, the exponent and the fraction.
#[tactic(auto, using(crate::proofs::Sizes::sizes))]
fn put_parts(text: &mut Text, negative: bool, exponent: u32, fraction: u32)
    requires exponent_bound { exponent ≤ 255 }
    requires fraction_bound { fraction < 8388608 }
    requires at_in_bounds { HasRoom text.old 44 }
    ensures { Puts text.old
        (decimal_text (of_fields binary32 negative exponent fraction)) text.new }
{
    if exponent <= 150 {
        text.put(&small(negative, exponent, fraction));
    } else if exponent < 255 {
        put_scaled(text, negative, 8388608 + fraction, exponent - 150);
    } else if fraction > 0 {
        text.put(b"             nan");
    } else if negative {
        text.put(b"            -inf");
    } else {
        text.put(b"             inf");
    }
}

// A float, in 16 bytes but for the largest.
pub(crate) fn put_float(text: &mut Text, x: f32)
    requires { HasRoom text.old 44 }
    ensures { Puts text.old (decimal_text x) text.new }
{
    let w = number::bits32(x);
    put_parts(
        text,
        w >= 0x8000_0000,
        w % 0x8000_0000 / 0x80_0000,
        w % 0x80_0000,
    );
}
