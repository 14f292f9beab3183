// Exports `jutetrowel::numbers`: the arithmetic.
ghost use Rattle.std.specs.Prelude.{◌≡◌};
ghost use Rattle.std.specs.Float.{binary32, binary64};
ghost use Rattle.std.specs.Float.Ieee.{of_int, to_signed, to_unsigned};
ghost use Rattle.base.specs.Number.{abs_of, min_of, max_of, narrow_of, sqrt_of};
ghost use Rattle.maps.specs.Geometry.{sign_of};
ghost use Rattle.base.specs.Elementary.{sin_of, cos_of, atan_of, acos_of, exp_of, ln_of, sin32_of, cos32_of, atan32_of, acos32_of, exp32_of, ln32_of};

use jutetrowel::numbers;

// The size of x, which takes -0 to +0; a NaN gives a NaN.
#[unsafe(no_mangle)]
pub extern "C" fn jt_abs32(x: f32) -> f32
    ensures { result ≡ abs_of x }
{
    numbers::jt_abs32(x)
}

// The size of x, which takes -0 to +0; a NaN gives a NaN.
#[unsafe(no_mangle)]
pub extern "C" fn jt_abs64(x: f64) -> f64
    ensures { result ≡ abs_of x }
{
    numbers::jt_abs64(x)
}

// The lesser of two, the other one where one is a NaN, and the left of equals.
#[unsafe(no_mangle)]
pub extern "C" fn jt_min(a: f32, b: f32) -> f32
    ensures { result ≡ min_of a b }
{
    numbers::jt_min(a, b)
}

// The greater of two, the other one where one is a NaN, and the left of equals.
#[unsafe(no_mangle)]
pub extern "C" fn jt_max(a: f32, b: f32) -> f32
    ensures { result ≡ max_of a b }
{
    numbers::jt_max(a, b)
}

// As Fortran's SIGN: the size of a, negative where b is below zero or a NaN. -0 is not below zero.
// Where a is a NaN, so is the result.
#[unsafe(no_mangle)]
pub extern "C" fn jt_sign(a: f32, b: f32) -> f32
    ensures { result ≡ sign_of a b }
{
    numbers::jt_sign(a, b)
}

// x as an `f64`, which holds every `f32`; a NaN gives a NaN.
#[unsafe(no_mangle)]
pub extern "C" fn jt_widen(x: f32) -> f64
    ensures { result ≡ x }
{
    numbers::jt_widen(x)
}

// The `f32` nearest to x, a tie going to the one whose last digit is even; a NaN gives a NaN.
#[unsafe(no_mangle)]
pub extern "C" fn jt_narrow(x: f64) -> f32
    ensures { result ≡ narrow_of x }
{
    numbers::jt_narrow(x)
}

// √x to the nearest `f64`; a NaN for a NaN and for any x below zero but -0, whose root is -0.
#[unsafe(no_mangle)]
pub extern "C" fn jt_sqrt64(x: f64) -> f64
    ensures { result ≡ sqrt_of binary64 x }
{
    numbers::jt_sqrt64(x)
}

// √x to the nearest `f32`; a NaN for a NaN and for any x below zero but -0, whose root is -0.
#[unsafe(no_mangle)]
pub extern "C" fn jt_sqrt32(x: f32) -> f32
    ensures { result ≡ sqrt_of binary32 x }
{
    numbers::jt_sqrt32(x)
}

// x without its fraction, as Rust's `as i32` has it: the nearest end of the range where x is
// outside, and 0 for a NaN.
#[unsafe(no_mangle)]
pub extern "C" fn jt_to_i32(x: f32) -> i32
    ensures { result ≡ to_signed 31 x }
{
    numbers::jt_to_i32(x)
}

// The `f32` nearest to n, as Rust's `as` has it.
#[unsafe(no_mangle)]
pub extern "C" fn jt_from_i32(n: i32) -> f32
    ensures { result ≡ of_int binary32 n }
{
    numbers::jt_from_i32(n)
}

// x without its fraction, as Rust's `as u64` has it.
#[unsafe(no_mangle)]
pub extern "C" fn jt_to_u64(x: f64) -> u64
    ensures { result ≡ to_unsigned 64 x }
{
    numbers::jt_to_u64(x)
}

// The sine of x radians, by document 01's steps; a NaN for a NaN and beyond 1000 in size.
#[unsafe(no_mangle)]
pub extern "C" fn jt_sin64(x: f64) -> f64
    ensures { result ≡ sin_of x }
{
    numbers::jt_sin64(x)
}

// The cosine of x radians, by document 01's steps; a NaN for a NaN and beyond 1000 in size.
#[unsafe(no_mangle)]
pub extern "C" fn jt_cos64(x: f64) -> f64
    ensures { result ≡ cos_of x }
{
    numbers::jt_cos64(x)
}

// The arc tangent of x, in radians, by document 01's steps; a NaN for a NaN.
#[unsafe(no_mangle)]
pub extern "C" fn jt_atan64(x: f64) -> f64
    ensures { result ≡ atan_of x }
{
    numbers::jt_atan64(x)
}

// The arc cosine of x, in radians, by document 01's steps; a NaN for a NaN and beyond 1 in size.
#[unsafe(no_mangle)]
pub extern "C" fn jt_acos64(x: f64) -> f64
    ensures { result ≡ acos_of x }
{
    numbers::jt_acos64(x)
}

// e to the power x, by document 01's steps; a NaN for a NaN.
#[unsafe(no_mangle)]
pub extern "C" fn jt_exp64(x: f64) -> f64
    ensures { result ≡ exp_of x }
{
    numbers::jt_exp64(x)
}

// The natural logarithm of x, by document 01's steps; a NaN for a NaN and below zero.
#[unsafe(no_mangle)]
pub extern "C" fn jt_ln64(x: f64) -> f64
    ensures { result ≡ ln_of x }
{
    numbers::jt_ln64(x)
}

// The sine of x radians, through the `f64` one and narrowed; a NaN for a NaN and beyond 1000 in
// size.
#[unsafe(no_mangle)]
pub extern "C" fn jt_sin32(x: f32) -> f32
    ensures { result ≡ sin32_of x }
{
    numbers::jt_sin32(x)
}

// The cosine of x radians, through the `f64` one and narrowed; a NaN for a NaN and beyond 1000
// in size.
#[unsafe(no_mangle)]
pub extern "C" fn jt_cos32(x: f32) -> f32
    ensures { result ≡ cos32_of x }
{
    numbers::jt_cos32(x)
}

// The arc tangent of x, in radians, through the `f64` one and narrowed; a NaN for a NaN.
#[unsafe(no_mangle)]
pub extern "C" fn jt_atan32(x: f32) -> f32
    ensures { result ≡ atan32_of x }
{
    numbers::jt_atan32(x)
}

// The arc cosine of x, in radians, through the `f64` one and narrowed; a NaN for a NaN and beyond 1
// in size.
#[unsafe(no_mangle)]
pub extern "C" fn jt_acos32(x: f32) -> f32
    ensures { result ≡ acos32_of x }
{
    numbers::jt_acos32(x)
}

// e to the power x, through the `f64` one and narrowed; a NaN for a NaN.
#[unsafe(no_mangle)]
pub extern "C" fn jt_exp32(x: f32) -> f32
    ensures { result ≡ exp32_of x }
{
    numbers::jt_exp32(x)
}

// The natural logarithm of x, through the `f64` one and narrowed; a NaN for a NaN and below zero.
#[unsafe(no_mangle)]
pub extern "C" fn jt_ln32(x: f32) -> f32
    ensures { result ≡ ln32_of x }
{
    numbers::jt_ln32(x)
}
