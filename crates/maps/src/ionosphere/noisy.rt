// NOISY: a two-variable Fourier map.
ghost use Rattle.std.specs.Prelude.{◌≡◌, ℕ, ◌<◌, ◌≤◌, slice_index_or};
ghost use Rattle.std.specs.Float.{nan};
ghost use Rattle.base.specs.Single.{◌⊕◌, ◌⊖◌, ◌⊗◌};
ghost use Rattle.base.specs.Elementary.{sin32_of, cos32_of};
ghost use Rattle.maps.specs.Noisy.{in_plane, turn_of, sx_of, each, columns_of, zz_of, latitude_sum, noisy_of};

use base::blend::PLANE;
use base::elementary::{cos32, sin32};

// One plane, its rows one after the other.
pub type Plane = [f32; PLANE];

// The sine and the cosine of an angle.
#[derive(Clone, Copy)]
struct Wave {
    sine: f32,
    cosine: f32,
}

impl Wave {
    fn of(x: f32) -> Wave
        ensures sine { result.sine ≡ sin32_of x }
        ensures cosine { result.cosine ≡ cos32_of x }
    {
        Wave {
            sine: sin32(x),
            cosine: cos32(x),
        }
    }

    // The wave of the sum of two angles.
    fn plus(self, angle: Wave) -> Wave
        ensures sine { result.sine ≡ self.sine ⊗ angle.cosine ⊕ self.cosine ⊗ angle.sine }
        ensures cosine { result.cosine ≡ self.cosine ⊗ angle.cosine ⊖ self.sine ⊗ angle.sine }
    {
        Wave {
            sine: self.sine * angle.cosine + self.cosine * angle.sine,
            cosine: self.cosine * angle.cosine - self.sine * angle.sine,
        }
    }
}

// The sines of 1 to n times an angle, from its wave.
fn sines(angle: Wave, n: usize) -> [f32; 15]
    requires { n ≤ 15 }
    ensures { result ≡ sx_of angle.sine angle.cosine n }
{
    let mut sx = [0.0f32; 15];
    let mut v = angle;
    for k in 0..n {
        sx[k] = v.sine;
        v = v.plus(angle);
    }
    sx
}

// The row k of the plane times x, added to the first lm columns.
fn add_row(zz: &mut [f32; 29], plane: &Plane, k: usize, x: f32, lm: usize)
    requires { (k < 16) × (lm ≤ 29) }
    ensures { zz.new ≡ each (λ j z. z ⊕ x ⊗ in_plane plane.now k j) zz.old lm }
{
    let at = k * 29;
    for j in 0..lm {
        zz[j] = zz[j] + x * plane[at + j];
    }
}

// Row 15, which no sine multiplies, added to the first lm columns. As a row times 1 it would cost a
// multiplication for each column.
fn add_last(zz: &mut [f32; 29], plane: &Plane, lm: usize)
    requires { lm ≤ 29 }
    ensures { zz.new ≡ each (λ j z. z ⊕ in_plane plane.now 15 j) zz.old lm }
{
    for j in 0..lm {
        zz[j] = zz[j] + plane[435 + j];
    }
}

// The sum of each of the first lm columns: ln rows, each times its sine, and row 15. It goes row by
// row, where the Rust goes column by column, so that neighbouring columns are added at once; what a
// column adds, and in which order, is the same.
fn columns<'a>(sx: &'a [f32; 15], plane: &'a Plane, ln: usize, lm: usize) -> [f32; 29]
    requires { (ln ≤ 15) × (lm ≤ 29) }
    ensures { result ≡ columns_of sx.now plane.now ln lm }
{
    let mut zz = [0.0f32; 29];
    for k in 0..ln {
        add_row(&mut zz, plane, k, sx[k], lm);
    }
    add_last(&mut zz, plane, lm);
    zz
}

// The first n columns, each times the sine of its multiple of an angle, summed.
fn latitude_sum(zz: &[f32; 29], angle: Wave, n: usize) -> f32
    requires { n ≤ 29 }
    ensures { let sine = λ (k : ℕ). (turn_of angle.sine angle.cosine k).sine in
        result ≡ latitude_sum sine (λ k. slice_index_or zz.now k nan) n }
{
    let mut sum = 0.0f32;
    let mut v = angle;
    for k in 0..n {
        sum = sum + v.sine * zz[k];
        v = v.plus(angle);
    }
    sum
}

// A map of lm columns, each summed over ln sines of half the longitude, and they over sines of the
// latitude counted from the south pole, which is p. Both waves are given, which leaves this so
// short that it is compiled once for each pair of limits, its loops unrolled.
fn noisy_sum(
    lm: usize,
    ln: usize,
    plane: &Plane,
    alf: f32,
    bet: f32,
    p: f32,
    half: Wave,
    angle: Wave,
) -> f32
    requires { (lm ≤ 29) × (ln ≤ 15) }
    ensures { let zz = zz_of (λ k. (turn_of half.sine half.cosine k).sine) plane.now ln in
        result ≡ latitude_sum (λ k. (turn_of angle.sine angle.cosine k).sine) zz lm ⊕ alf ⊕ bet ⊗ p }
{
    let zz = columns(&sines(half, ln), plane, ln, lm);
    latitude_sum(&zz, angle, lm) + alf + bet * p
}

// The value of a Fourier map at `xla` and `ceg`, in degrees; `alf` and `bet` are what the file has
// for the map, `ratio_map` says that it is the shorter one, of the height ratio.
pub fn noisy(plane: &Plane, alf: f32, bet: f32, ratio_map: bool, xla: f32, ceg: f32) -> f32
    ensures { result ≡ noisy_of plane.now alf bet ratio_map xla ceg }
{
    let half = Wave::of(0.0087266466 * ceg);
    let p = 0.01745329252 * (xla + 90.0);
    let angle = Wave::of(p);
    if ratio_map {
        noisy_sum(15, 10, plane, alf, bet, p, half, angle)
    } else {
        noisy_sum(29, 15, plane, alf, bet, p, half, angle)
    }
}
