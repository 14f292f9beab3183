// The arithmetic of `base`, and `sign` of `maps::geometry`, under names of their own.
ghost use Rattle.std.specs.Prelude.{◌≡◌};
ghost use Rattle.std.specs.Float.{binary32, binary64};
ghost use Rattle.std.specs.Float.Ieee.{of_int, to_signed, to_unsigned};
ghost use Rattle.base.specs.Number.{abs_of, min_of, max_of, narrow_of, sqrt_of};
ghost use Rattle.maps.specs.Geometry.{sign_of};
ghost use Rattle.base.specs.Elementary.{sin_of, cos_of, atan_of, acos_of, exp_of, ln_of, sin32_of, cos32_of, atan32_of, acos32_of, exp32_of, ln32_of};

// The size of x, which takes -0 to +0; a NaN gives a NaN.
pub fn jt_abs32(x: f32) -> f32
    ensures { result ≡ abs_of x }
{
    base::number::abs32(x)
}

// The size of x, which takes -0 to +0; a NaN gives a NaN.
pub fn jt_abs64(x: f64) -> f64
    ensures { result ≡ abs_of x }
{
    base::number::abs64(x)
}

// The lesser of two, the other one where one is a NaN, and the left of equals.
pub fn jt_min(a: f32, b: f32) -> f32
    ensures { result ≡ min_of a b }
{
    base::number::min(a, b)
}

// The greater of two, the other one where one is a NaN, and the left of equals.
pub fn jt_max(a: f32, b: f32) -> f32
    ensures { result ≡ max_of a b }
{
    base::number::max(a, b)
}

// As Fortran's SIGN: the size of a, negative where b is below zero or a NaN. -0 is not below zero.
// Where a is a NaN, so is the result.
pub fn jt_sign(a: f32, b: f32) -> f32
    ensures { result ≡ sign_of a b }
{
    maps::geometry::sign(a, b)
}

// x as an `f64`, which holds every `f32`; a NaN gives a NaN.
pub fn jt_widen(x: f32) -> f64
    ensures { result ≡ x }
{
    base::number::widen(x)
}

// The `f32` nearest to x, a tie going to the one whose last digit is even; a NaN gives a NaN.
pub fn jt_narrow(x: f64) -> f32
    ensures { result ≡ narrow_of x }
{
    base::number::narrow(x)
}

// √x to the nearest `f64`; a NaN for a NaN and for any x below zero but -0, whose root is -0.
pub fn jt_sqrt64(x: f64) -> f64
    ensures { result ≡ sqrt_of binary64 x }
{
    base::number::sqrt64(x)
}

// √x to the nearest `f32`; a NaN for a NaN and for any x below zero but -0, whose root is -0.
pub fn jt_sqrt32(x: f32) -> f32
    ensures { result ≡ sqrt_of binary32 x }
{
    base::number::sqrt32(x)
}

// x without its fraction, as Rust's `as i32` has it: the nearest end of the range where x is
// outside, and 0 for a NaN.
pub fn jt_to_i32(x: f32) -> i32
    ensures { result ≡ to_signed 31 x }
{
    base::number::to_i32(x)
}

// The `f32` nearest to n, as Rust's `as` has it.
pub fn jt_from_i32(n: i32) -> f32
    ensures { result ≡ of_int binary32 n }
{
    base::number::from_i32(n)
}

// x without its fraction, as Rust's `as u64` has it.
pub fn jt_to_u64(x: f64) -> u64
    ensures { result ≡ to_unsigned 64 x }
{
    base::number::to_u64(x)
}

// The sine of x radians, by document 01's steps; a NaN for a NaN and beyond 1000 in size.
pub fn jt_sin64(x: f64) -> f64
    ensures { result ≡ sin_of x }
{
    base::elementary::sin64(x)
}

// The cosine of x radians, by document 01's steps; a NaN for a NaN and beyond 1000 in size.
pub fn jt_cos64(x: f64) -> f64
    ensures { result ≡ cos_of x }
{
    base::elementary::cos64(x)
}

// The arc tangent of x, in radians, by document 01's steps; a NaN for a NaN.
pub fn jt_atan64(x: f64) -> f64
    ensures { result ≡ atan_of x }
{
    base::elementary::atan64(x)
}

// The arc cosine of x, in radians, by document 01's steps; a NaN for a NaN and beyond 1 in size.
pub fn jt_acos64(x: f64) -> f64
    ensures { result ≡ acos_of x }
{
    base::elementary::acos64(x)
}

// e to the power x, by document 01's steps; a NaN for a NaN.
pub fn jt_exp64(x: f64) -> f64
    ensures { result ≡ exp_of x }
{
    base::elementary::exp64(x)
}

// The natural logarithm of x, by document 01's steps; a NaN for a NaN and below zero.
pub fn jt_ln64(x: f64) -> f64
    ensures { result ≡ ln_of x }
{
    base::elementary::ln64(x)
}

// The sine of x radians, through the `f64` one and narrowed; a NaN for a NaN and beyond 1000 in
// size.
pub fn jt_sin32(x: f32) -> f32
    ensures { result ≡ sin32_of x }
{
    base::elementary::sin32(x)
}

// The cosine of x radians, through the `f64` one and narrowed; a NaN for a NaN and beyond 1000
// in size.
pub fn jt_cos32(x: f32) -> f32
    ensures { result ≡ cos32_of x }
{
    base::elementary::cos32(x)
}

// The arc tangent of x, in radians, through the `f64` one and narrowed; a NaN for a NaN.
pub fn jt_atan32(x: f32) -> f32
    ensures { result ≡ atan32_of x }
{
    base::elementary::atan32(x)
}

// The arc cosine of x, in radians, through the `f64` one and narrowed; a NaN for a NaN and beyond 1
// in size.
pub fn jt_acos32(x: f32) -> f32
    ensures { result ≡ acos32_of x }
{
    base::elementary::acos32(x)
}

// e to the power x, through the `f64` one and narrowed; a NaN for a NaN.
pub fn jt_exp32(x: f32) -> f32
    ensures { result ≡ exp32_of x }
{
    base::elementary::exp32(x)
}

// The natural logarithm of x, through the `f64` one and narrowed; a NaN for a NaN and below zero.
pub fn jt_ln32(x: f32) -> f32
    ensures { result ≡ ln32_of x }
{
    base::elementary::ln32(x)
}
