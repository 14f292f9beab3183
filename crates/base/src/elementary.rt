// Document 01's elementary functions: worked in `f64`, each operation rounded once; an `f32` call
// widens, works and narrows.
ghost use Rattle.std.specs.Prelude.{◌≡◌, ◌*◌, ◌^◌, ◌<◌, ◌≤◌, T, from_bits, fold, reverse};
ghost use Rattle.std.specs.Float.{binary64};
ghost use Rattle.std.specs.Float.Ieee.{le, minus, of_int};
ghost use Rattle.base.specs.Double.{◌⊕◌, fraction};
ghost use Rattle.base.specs.Number.{abs_of};
ghost use Rattle.base.specs.Elementary as steps;
ghost use Rattle.base.specs.Elementary.{turn};
ghost use Rattle.base.specs.Elementary.{near_of, quarter_of, power_of_two, turns_of, reduced_of, sin_series, cos_series, sin_at, cos_at, sin_of, cos_of, half_angle, atan_series, atan_within, atan_from, atan_of, acos_of, exp_within, exp_of, ln_series, ln_sum, ln_of, sin32_of, cos32_of, atan32_of, acos32_of, exp32_of, ln32_of};

use crate::number::{abs64, is_negative, narrow, sqrt64, to_u64, widen};

// The coefficients of the series, lowest term first.
const SIN: [f64; 8] = [
    1.0,
    -0.16666666666666666,
    0.008333333333333333,
    -0.0001984126984126984,
    2.7557319223985893e-6,
    -2.505210838544172e-8,
    1.6059043836821613e-10,
    -7.647163731819816e-13,
];

const COS: [f64; 9] = [
    1.0,
    -0.5,
    0.041666666666666664,
    -0.001388888888888889,
    2.48015873015873e-5,
    -2.755731922398589e-7,
    2.08767569878681e-9,
    -1.1470745597729725e-11,
    4.779477332387385e-14,
];

const ATAN: [f64; 7] = [
    1.0,
    -0.3333333333333333,
    0.2,
    -0.14285714285714285,
    0.1111111111111111,
    -0.09090909090909091,
    0.07692307692307693,
];

const EXP: [f64; 14] = [
    1.0,
    1.0,
    0.5,
    0.16666666666666666,
    0.041666666666666664,
    0.008333333333333333,
    0.001388888888888889,
    0.0001984126984126984,
    2.48015873015873e-5,
    2.7557319223985893e-6,
    2.755731922398589e-7,
    2.505210838544172e-8,
    2.08767569878681e-9,
    1.6059043836821613e-10,
];

const LN: [f64; 16] = [
    1.0,
    0.3333333333333333,
    0.2,
    0.14285714285714285,
    0.1111111111111111,
    0.09090909090909091,
    0.07692307692307693,
    0.06666666666666667,
    0.058823529411764705,
    0.05263157894736842,
    0.047619047619047616,
    0.043478260869565216,
    0.04,
    0.037037037037037035,
    0.034482758620689655,
    0.03225806451612903,
];

// t[0] + x (t[1] + x (t[2] + ..)), from the highest term down.
fn horner(t: &[f64], x: f64) -> f64
    ensures { result ≡ steps.horner t.now x }
{
    match t.split_last() {
        Some((highest, lower)) => from_highest(*highest, lower, x),
        None => 0.0,
    }
}

// The same sum, the highest term being known.
fn from_highest(highest: f64, lower: &[f64], x: f64) -> f64
    ensures { result ≡ fold (turn x) highest (reverse lower.now) }
{
    lower.iter().rev().fold(highest, |s, c| s * x + *c)
}

// y, shifted so that the nearest whole number stands in the last digits, where y is small enough.
fn shifted(y: f64) -> f64
    ensures { result ≡ y ⊕ fraction 6755399441055744 1 }
{
    y + 6755399441055744.0
}

// y to the nearest whole number, where it is small enough.
fn near(y: f64) -> f64
    ensures { result ≡ near_of y }
{
    shifted(y) - 6755399441055744.0
}

// The whole number nearest to y modulo 4, from 0 to 3 for a negative one too.
fn quarter(y: f64) -> u64
    requires { T (le (abs_of y) (fraction 1024 1)) }
    ensures { result ≡ quarter_of (near_of y) }
{
    shifted(y).to_bits() % 4
}

// v without n quarter turns.
fn reduced(v: f64, n: f64) -> f64
    ensures { result ≡ reduced_of v n }
{
    (v - n * 1.5707963267948966) - n * 6.123233995736766e-17
}

// An angle as quarter turns, from 0 to 3 of them, and a rest.
#[derive(Clone, Copy)]
struct Turned {
    quarter: u64,
    rest: f64,
}

// v as the nearest quarter turns, modulo 4, and what v is without them.
fn split(v: f64) -> Turned
    requires { T (le (abs_of v) (fraction 1000 1)) }
    ensures quarter { result.quarter ≡ quarter_of (turns_of v) }
    ensures rest { result.rest ≡ reduced_of v (turns_of v) }
{
    let y = v * 0.6366197723675814;
    Turned {
        quarter: quarter(y),
        rest: reduced(v, near(y)),
    }
}

// The sine and the cosine of a small a.
fn sin_series(a: f64) -> f64
    ensures { result ≡ sin_series a }
{
    a * horner(&SIN, a * a)
}

fn cos_series(a: f64) -> f64
    ensures { result ≡ cos_series a }
{
    horner(&COS, a * a)
}

fn sin_at(q: u64, a: f64) -> f64
    ensures { result ≡ sin_at q a }
{
    match q {
        0 => sin_series(a),
        1 => cos_series(a),
        2 => -sin_series(a),
        _ => -cos_series(a),
    }
}

fn cos_at(q: u64, a: f64) -> f64
    ensures { result ≡ cos_at q a }
{
    match q {
        0 => cos_series(a),
        1 => -sin_series(a),
        2 => -cos_series(a),
        _ => sin_series(a),
    }
}

// The sine of v radians, by document 01's steps; a NaN for a NaN and for v beyond 1000 in size.
pub fn sin64(v: f64) -> f64
    ensures { result ≡ sin_of v }
{
    if abs64(v) <= 1000.0 {
        let t = split(v);
        sin_at(t.quarter, t.rest)
    } else {
        f64::NAN
    }
}

// The cosine of v, in radians, by document 01's steps; a NaN for a NaN and for v beyond 1000 in
// size.
pub fn cos64(v: f64) -> f64
    ensures { result ≡ cos_of v }
{
    if abs64(v) <= 1000.0 {
        let t = split(v);
        cos_at(t.quarter, t.rest)
    } else {
        f64::NAN
    }
}

// The tangent of half the angle whose tangent is a.
fn half_angle(a: f64) -> f64
    ensures { result ≡ half_angle a }
{
    a / (1.0 + sqrt64(1.0 + a * a))
}

// The arc tangent of a small a.
fn atan_series(a: f64) -> f64
    ensures { result ≡ atan_series a }
{
    a * horner(&ATAN, a * a)
}

// The arc tangent of an a from 0 to 1.
fn atan_within(a: f64) -> f64
    ensures { result ≡ atan_within a }
{
    atan_series(half_angle(half_angle(half_angle(a)))) * 8.0
}

// The arc tangent of an a of no sign.
fn atan_from(a: f64) -> f64
    ensures { result ≡ atan_from a }
{
    if a > 1.0 {
        1.5707963267948966 - atan_within(1.0 / a)
    } else {
        atan_within(a)
    }
}

// The arc tangent of v, in radians, by document 01's steps; a NaN for a NaN.
pub fn atan64(v: f64) -> f64
    ensures { result ≡ atan_of v }
{
    let t = atan_from(abs64(v));
    if is_negative(v) { -t } else { t }
}

// The arc cosine of v, in radians, by document 01's steps; a NaN for a NaN and for v beyond 1 in
// size.
pub fn acos64(v: f64) -> f64
    ensures { result ≡ acos_of v }
{
    if abs64(v) <= 1.0 {
        2.0 * atan64(sqrt64((1.0 - v) / (1.0 + v)))
    } else {
        f64::NAN
    }
}

// 2^k
fn power_up(k: u64) -> f64
    ensures { result ≡ fraction (2 ^ k) 1 }
{
    if k < 1024 {
        f64::from_bits((k + 1023) * 0x10_0000_0000_0000)
    } else {
        f64::INFINITY
    }
}

// 1 / 2^k
fn power_down(k: u64) -> f64
    ensures { result ≡ fraction 1 (2 ^ k) }
{
    if k < 1023 {
        f64::from_bits((1023 - k) * 0x10_0000_0000_0000)
    } else if k < 1075 {
        f64::from_bits(1 << (1074 - k))
    } else {
        0.0
    }
}

// 2^n
fn power(n: f64) -> f64
    ensures { result ≡ power_of_two n }
{
    let k = to_u64(abs64(n));
    if is_negative(n) {
        power_down(k)
    } else {
        power_up(k)
    }
}

// e^v for a v from -700 to 700.
fn exp_within(v: f64) -> f64
    ensures { result ≡ exp_within v }
{
    let n = near(v * 1.4426950408889634);
    horner(&EXP, v - n * 0.6931471805599453) * power(n)
}

// e to the power v, by document 01's steps: infinity above 700, zero below -700, a NaN for a NaN.
pub fn exp64(v: f64) -> f64
    ensures { result ≡ exp_of v }
{
    if v > 700.0 {
        f64::INFINITY
    } else if v < -700.0 {
        0.0
    } else {
        exp_within(v)
    }
}

// The logarithm of (1 + q) / (1 - q), for a small q.
fn ln_series(q: f64) -> f64
    ensures { result ≡ ln_series q }
{
    2.0 * q * horner(&LN, q * q)
}

// k * ln 2 + ln m
fn ln_sum(k: f64, m: f64) -> f64
    ensures { result ≡ ln_sum k m }
{
    k * 0.6931471805599453 + ln_series((m - 1.0) / (m + 1.0))
}

// f - 1075
fn exponent(f: u64) -> f64
    ensures { result ≡ of_int binary64 (minus f 1075) }
{
    if f >= 1075 {
        std::num::nearest_u64_to_f64(f - 1075)
    } else {
        -std::num::nearest_u64_to_f64(1075 - f)
    }
}

// The logarithm of m * 2^(f - 1127), where m has 53 digits.
fn ln_scaled(m: u64, f: u64) -> f64
    requires { (2 ^ 52 ≤ m) × (m < 2 ^ 53) }
    ensures { result ≡ ln_sum (of_int binary64 (minus f 1075)) (fraction m (2 ^ 52)) }
{
    ln_sum(exponent(f), f64::from_bits(m + 0x3fe0_0000_0000_0000))
}

// The logarithm of the positive number whose bits are b.
fn ln_bits(b: u64) -> f64
    requires { (0 < b) × (b < 2047 * 2 ^ 52) }
    ensures { result ≡ ln_of (from_bits binary64 b) }
{
    if b < 0x10_0000_0000_0000 {
        let shift = u64::leading_zeros(b) as u64 - 11;
        ln_scaled(b << shift, 53 - shift)
    } else {
        ln_scaled(
            b % 0x10_0000_0000_0000 + 0x10_0000_0000_0000,
            b / 0x10_0000_0000_0000 + 52,
        )
    }
}

// The natural logarithm of x, by document 01's steps: a NaN for a NaN and below zero, minus
// infinity at either zero, infinity at infinity.
pub fn ln64(x: f64) -> f64
    ensures { result ≡ ln_of x }
{
    if x.is_nan() {
        return x;
    }
    let b = x.to_bits();
    if b % 0x8000_0000_0000_0000 == 0 {
        return f64::NEG_INFINITY;
    }
    if b > 0x8000_0000_0000_0000 {
        return f64::NAN;
    }
    if b == 0x7ff0_0000_0000_0000 {
        return x;
    }
    ln_bits(b)
}

// The sine of x radians: x is widened, `sin64` works it out, and its answer is narrowed.
pub fn sin32(x: f32) -> f32
    ensures { result ≡ sin32_of x }
{
    narrow(sin64(widen(x)))
}

// The cosine of x radians: x is widened, `cos64` works it out, and its answer is narrowed.
pub fn cos32(x: f32) -> f32
    ensures { result ≡ cos32_of x }
{
    narrow(cos64(widen(x)))
}

// The arc tangent of x, in radians: x is widened, `atan64` works it out, and its answer is
// narrowed.
pub fn atan32(x: f32) -> f32
    ensures { result ≡ atan32_of x }
{
    narrow(atan64(widen(x)))
}

// The arc cosine of x, in radians: x is widened, `acos64` works it out, and its answer is narrowed.
pub fn acos32(x: f32) -> f32
    ensures { result ≡ acos32_of x }
{
    narrow(acos64(widen(x)))
}

// e to the power x: x is widened, `exp64` works it out, and its answer is narrowed.
pub fn exp32(x: f32) -> f32
    ensures { result ≡ exp32_of x }
{
    narrow(exp64(widen(x)))
}

// The natural logarithm of x: x is widened, `ln64` works it out, and its answer is narrowed.
pub fn ln32(x: f32) -> f32
    ensures { result ≡ ln32_of x }
{
    narrow(ln64(widen(x)))
}
