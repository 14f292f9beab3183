// What Rattle's operators and casts leave out: sizes, the lesser and the greater, conversions and
// the square root. What is there for `f32` and for `f64` is a call of std each time, but for the
// root: a trait over both would have the same bodies.
ghost use Rattle.std.specs.Prelude.{◌≡◌, ◌+◌, ◌-◌, ◌*◌, ◌/◌, ◌%◌, ◌^◌, ◌<◌, ◌≤◌, Bool, true, if◌then◌else◌, from_bits, to_bits};
ghost use Rattle.std.specs.Float.{binary32, binary64};
ghost use Rattle.std.specs.Float.Ieee.{of_int, to_signed, to_unsigned};
ghost use Rattle.std.specs.Float.Ieee.Nearest.{closest};
ghost use Rattle.base.specs.Number.{negative, abs_of, min_of, max_of, narrow_of, signed_of, closest_root, sqrt_of};

// Whether x has a sign, as -0 has; a NaN has none.
pub fn is_negative(x: f64) -> bool
    ensures { result ≡ negative x }
{
    !x.is_nan() && x.is_sign_negative()
}

// The size of x, which takes -0 to +0; a NaN gives a NaN.
pub fn abs64(x: f64) -> f64
    ensures { result ≡ abs_of x }
{
    // By its bits, as below: std's `abs` takes 1.2 to 1.4 times as long.
    if x.is_nan() {
        return x;
    }
    f64::from_bits(x.to_bits() % 0x8000_0000_0000_0000)
}

// The size of x, which takes -0 to +0; a NaN gives a NaN.
pub fn abs32(x: f32) -> f32
    ensures { result ≡ abs_of x }
{
    if x.is_nan() {
        return x;
    }
    f32::from_bits(x.to_bits() % 0x8000_0000)
}

// The lesser of two, the other one where one is a NaN, and the left of equals.
#[tactic(auto, unfolding(crate::specs::Number::min_of))]
pub fn min(a: f32, b: f32) -> f32
    ensures { result ≡ min_of a b }
{
    // std's `min` leaves open which of 0 and -0 it gives.
    if a.is_nan() || b < a { b } else { a }
}

// The greater of two, the other one where one is a NaN, and the left of equals.
#[tactic(auto, unfolding(crate::specs::Number::max_of))]
pub fn max(a: f32, b: f32) -> f32
    ensures { result ≡ max_of a b }
{
    // std's `max` leaves open which of 0 and -0 it gives.
    if a.is_nan() || a < b { b } else { a }
}

// x as an `f64`, which holds every `f32`; a NaN gives a NaN.
pub fn widen(x: f32) -> f64
    ensures { result ≡ x }
{
    std::num::f32_to_f64_with_nan(x)
}

// The `f32` whose bits are w; a NaN's pattern gives a NaN.
pub fn float32(w: u32) -> f32
    ensures { result ≡ from_bits binary32 w }
{
    std::num::f32_from_bits_with_nan(w)
}

// The `f64` whose bits are w; a NaN's pattern gives a NaN.
pub fn float64(w: u64) -> f64
    ensures { result ≡ from_bits binary64 w }
{
    std::num::f64_from_bits_with_nan(w)
}

// The bits of x; any NaN is 7fc00000.
pub fn bits32(x: f32) -> u32
    ensures { result ≡ to_bits binary32 x }
{
    std::num::f32_to_bits_with_nan(x)
}

// The bits of x; any NaN is 7ff8000000000000.
pub fn bits64(x: f64) -> u64
    ensures { result ≡ to_bits binary64 x }
{
    std::num::f64_to_bits_with_nan(x)
}

// The `i32` whose bits are w.
#[tactic(auto, unfolding(crate::specs::Number::signed_of))]
pub fn signed(w: u32) -> i32
    ensures { result ≡ signed_of w }
{
    w.cast_signed()
}

// The `f32` nearest to n, as Rust's `as` has it.
pub fn from_i32(n: i32) -> f32
    ensures { result ≡ of_int binary32 n }
{
    std::num::nearest_i32_to_f32(n)
}

// x without its fraction, as Rust's `as i32` has it: the nearest end of the range where x is
// outside, and 0 for a NaN.
pub fn to_i32(x: f32) -> i32
    ensures { result ≡ to_signed 31 x }
{
    std::num::saturating_f32_to_i32(x)
}

// x without its fraction, as Rust's `as u64` has it.
pub fn to_u64(x: f64) -> u64
    ensures { result ≡ to_unsigned 64 x }
{
    std::num::saturating_f64_to_u64(x)
}

// m / 2^n to the nearest whole number, a tie to the even one: half a unit less one is added, and
// one more where the quotient is odd.
fn half_even(m: u64, n: u64) -> u64
    requires { (0 < n) × (n < 64) × (m < 2 ^ 63) }
    ensures { result ≡ closest m (2 ^ n) }
{
    let odd = (m >> n) % 2;
    let half: u64 = 1 << (n - 1);
    (m + (half - 1) + odd) >> n
}

// The bits of the `f32` nearest to the `f64` whose bits, without the sign, are b, for either sign.
fn magnitude(b: u64) -> u64
    requires { b ≤ 2047 * 2 ^ 52 }
    ensures bound { result ≤ 255 * 2 ^ 23 }
    ensures value { (s : Bool) → from_bits binary32 ((if s then 2 ^ 31 else 0) + result) ≡ narrow_of (from_bits binary64 ((if s then 2 ^ 63 else 0) + b)) }
{
    let exponent = b / 0x10_0000_0000_0000;
    let digits = b % 0x10_0000_0000_0000 + 0x10_0000_0000_0000;
    if exponent <= 872 {
        0
    } else if exponent < 897 {
        half_even(digits, 926 - exponent)
    } else if exponent < 1151 {
        (exponent - 897) * 0x80_0000 + half_even(digits, 29)
    } else {
        0x7f80_0000
    }
}

// The `f32` nearest to x, a tie going to the one whose last digit is even; a NaN gives a NaN.
pub fn narrow(x: f64) -> f32
    ensures { result ≡ narrow_of x }
{
    // std's `nearest_f64_to_f32_with_nan` takes 1.4 to 1.9 times as long in a chain.
    if x.is_nan() {
        return f32::NAN;
    }
    let b = x.to_bits();
    let sign = b / 0x8000_0000_0000_0000;
    f32::from_bits((sign * 0x8000_0000 + magnitude(b % 0x8000_0000_0000_0000)) as u32)
}

// The `f32` nearest to x, as `narrow` gives it, kept as an `f64`.
pub fn narrowed(x: f64) -> f64
    ensures { result ≡ narrow_of x }
{
    // From 2^-126 on an `f32` is an `f64` whose last 29 digits are 0, so that the bits are rounded
    // where they stand; what may overflow or is below goes by `narrow`.
    if x.is_nan() {
        return x;
    }
    let b = x.to_bits();
    let exponent = b % 0x8000_0000_0000_0000 / 0x10_0000_0000_0000;
    if exponent < 897 || exponent >= 1150 {
        return widen(narrow(x));
    }
    let up = b + 0xfff_ffff + b / 0x2000_0000 % 2;
    f64::from_bits(up - up % 0x2000_0000)
}

// √(a * 2^52) to the nearest whole number, a binary digit a turn.
fn nearest_root(a: u64) -> u64
    requires { a < 2 ^ 54 }
    ensures { result ≡ closest_root (a * 2 ^ 52) 1 }
{
    // the root of the digits read so far is q, with `rest` left over; `digits` are those to come
    let mut digits = a;
    let mut q: u64 = 0;
    let mut rest: u64 = 0;
    for i in 0..53u64 {
        let next = rest * 4 + digits / 0x10_0000_0000_0000;
        let step = q * 4 + 1;
        digits = digits % 0x10_0000_0000_0000 * 4;
        if step <= next {
            rest = next - step;
            q = q * 2 + 1;
        } else {
            rest = next;
            q *= 2;
        }
    }
    if rest <= q { q } else { q + 1 }
}

// A guess at the root of the number x whose bits are b. Nothing is proved of how near it is; of
// random numbers about one in 3000 gets a guess that is not the nearest, and that one is beside it.
fn guess(b: u64) -> f64
    requires { b < 2047 * 2 ^ 52 }
{
    let x = f64::from_bits(b);
    // 1/√x: a start from the halved bits, then to about 10 and to 21 binary digits; the constants
    // spread the error to both sides
    let y0 = f64::from_bits(0x5fe4_0000_0000_0000 - b / 2);
    let y1 = y0 * 1.68191391 - x * 0.703952009 * y0 * (y0 * y0);
    let y2 = y1 * 1.500000316875 - x * 0.5 * y1 * (y1 * y1);
    // √x to 10 digits, with nothing after the 26th, so that its square is exact
    let p = x * y1;
    let t = p * 134217729.0;
    let c = t - (t - p);
    // √x to 21 digits, what its square leaves of x, and that divided by about 2√x
    let s = x * y2;
    let rest = x - c * c - (s - c) * (s + c);
    s + rest * (y2 * 0.875 - x * 0.375 * y2 * (y2 * y2))
}

// Whether w + 1 is √(a * 2^52) to the nearest whole number; it may be where this is false. It is
// if a * 2^52 is above w * (w + 1) and at most (w + 1) * (w + 2): the first product is taken off in
// three parts, and what is left tells.
fn is_nearest(a: u64, w: u64) -> bool
    requires { w < 2 ^ 53 }
    ensures { result ≡ true → w + 1 ≡ closest_root (a * 2 ^ 52) 1 }
{
    let h = w / 0x800_0000;
    let l = w % 0x800_0000;
    let square = h * h * 4;
    let high = std::num::wrapping_sub_u64(a, square);
    if high >= 0x40_0000_0000 {
        return false;
    }
    let cross = h * (l * 2 + 1);
    let over = std::num::wrapping_sub_u64(high * 0x200_0000, cross);
    if over >= 0x10_0000_0000 {
        return false;
    }
    let low = l * (l + 1) + 1;
    let rest = std::num::wrapping_sub_u64(over * 0x800_0000, low);
    rest < w * 2 + 2
}

// Whether s is the root of the number whose bits are b; it may be where this is false.
fn is_root(b: u64, s: f64) -> bool
    requires { (2 ^ 52 ≤ b) × (b < 2047 * 2 ^ 52) }
    ensures { result ≡ true → s ≡ sqrt_of binary64 (from_bits binary64 b) }
{
    if s.is_nan() {
        return false;
    }
    let f = b / 0x10_0000_0000_0000 + 1020;
    let odd = f % 2;
    let m = b % 0x10_0000_0000_0000 + 0x10_0000_0000_0000;
    let below = (f + odd) / 2 * 0x10_0000_0000_0000 + 1;
    let w = std::num::wrapping_sub_u64(f64::to_bits(s), below);
    if w >= 0x20_0000_0000_0000 {
        return false;
    }
    is_nearest(m * (2 - odd), w)
}

// The bits of √(m * 2^(f - 2095)), where m has 53 digits.
fn scaled_root(m: u64, f: u64) -> u64
    requires { (2 ^ 52 ≤ m) × (m < 2 ^ 53) × (f < 3072) }
    ensures { result ≡ (f + f % 2) / 2 * 2 ^ 52 + closest_root (m * (2 - f % 2) * 2 ^ 52) 1 }
{
    let odd = f % 2;
    (f + odd) / 2 * 0x10_0000_0000_0000 + nearest_root(m * (2 - odd))
}

// The bits of the root of the positive number whose bits are b.
fn root_bits(b: u64) -> u64
    requires { (0 < b) × (b < 2047 * 2 ^ 52) }
    ensures bound { result < 2047 * 2 ^ 52 }
    ensures value { from_bits binary64 result ≡ sqrt_of binary64 (from_bits binary64 b) }
{
    if b < 0x10_0000_0000_0000 {
        let shift = u64::leading_zeros(b) as u64 - 11;
        scaled_root(b << shift, 1021 - shift)
    } else {
        scaled_root(
            b % 0x10_0000_0000_0000 + 0x10_0000_0000_0000,
            b / 0x10_0000_0000_0000 + 1020,
        )
    }
}

// The root of the number whose bits are b, which has 53 digits.
fn normal_root(b: u64) -> f64
    requires { (2 ^ 52 ≤ b) × (b < 2047 * 2 ^ 52) }
    ensures { result ≡ sqrt_of binary64 (from_bits binary64 b) }
{
    let s = guess(b);
    if is_root(b, s) {
        s
    } else {
        f64::from_bits(root_bits(b))
    }
}

// √x to the nearest `f64`; a NaN for a NaN and for any x below zero but -0, whose root is -0.
// Not std's `sqrt`, which is the processor's operation: nothing more than before is to be trusted.
pub fn sqrt64(x: f64) -> f64
    ensures { result ≡ sqrt_of binary64 x }
{
    if x.is_nan() {
        return x;
    }
    let b = f64::to_bits(x);
    // above zero, neither subnormal nor infinite
    if std::num::wrapping_sub_u64(b, 0x10_0000_0000_0000) < 0x7fe0_0000_0000_0000 {
        return normal_root(b);
    }
    if b % 0x8000_0000_0000_0000 == 0 {
        return x;
    }
    if b > 0x8000_0000_0000_0000 {
        return f64::NAN;
    }
    if b == 0x7ff0_0000_0000_0000 {
        return x;
    }
    f64::from_bits(root_bits(b))
}

// √x to the nearest `f32`; a NaN for a NaN and for any x below zero but -0, whose root is -0.
pub fn sqrt32(x: f32) -> f32
    ensures { result ≡ sqrt_of binary32 x }
{
    // The `f64` nearest to √x has more than twice the digits, so that rounding it once more gives
    // the `f32` nearest to √x itself.
    narrow(sqrt64(widen(x)))
}
