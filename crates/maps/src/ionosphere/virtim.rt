// VIRTIM: the maps' coefficients at an hour.
ghost use Rattle.std.specs.Prelude.{◌≡◌, ◌+◌, ◌-◌, ◌*◌, ◌<◌, ◌≤◌, slice_index};
ghost use Rattle.base.specs.Blend.{IC};
ghost use Rattle.maps.specs.Virtim.{StartsRule, hour_waves, wave_in, value_of, time_map_of, virtim_of};

use crate::ionosphere::index::CheckedIndex;
use crate::ionosphere::starts::{AB_ROWS, SERIES_STARTS, SeriesStarts};
use base::angle::Degrees;
use base::blend::SixMaps;
use base::elementary::{cos32, sin32};

// `AB`, the coefficients of the six maps at an hour, one map after the other.
pub type TimeMaps = [f32; AB_ROWS];

// Where the rows of each map begin among the 318 of `AB`, counted from 1.
const IC: [usize; 6] = [1, 56, 117, 172, 248, 297];

// Where the rows of the map k begin in `AB`, counted from 0.
pub(crate) fn first_row(k: usize) -> usize
    requires { k < 6 }
    ensures { result ≡ slice_index IC k - 1 }
{
    IC[k] - 1
}

// The cosines and sines of 1 to 8 times the hour's angle.
#[derive(Clone, Copy)]
struct Waves {
    c: [f32; 8],
    s: [f32; 8],
}

// Each follows from the one before it, by the rule for the sum of two angles.
fn hour_waves(gmt: f32) -> Waves
    ensures { result ≡ hour_waves gmt }
{
    let time = Degrees(15.0 * gmt - 180.0).to_radians();
    let c0 = cos32(time.0);
    let s0 = sin32(time.0);
    let mut c = [0.0f32; 8];
    let mut s = [0.0f32; 8];
    let mut cosine = c0;
    let mut sine = s0;
    for jb in 0..8 {
        c[jb] = cosine;
        s[jb] = sine;
        let next = c0 * cosine - s0 * sine;
        sine = c0 * sine + s0 * cosine;
        cosine = next;
    }
    Waves { c, s }
}

// Two rows' series at the hour: their means, which stand at a and b, and n harmonics of each. Two at
// a time, so that each wave is read once for both.
fn two_values(cof: &SixMaps, a: usize, b: usize, n: usize, c: &[f32; 8], s: &[f32; 8]) -> (f32, f32)
    requires { (n ≤ 8) × (a + 2 * n < 2604) × (b + 2 * n < 2604) }
    ensures first { result.0 ≡ value_of (wave_in c.now s.now) cof.now a n }
    ensures second { result.1 ≡ value_of (wave_in c.now s.now) cof.now b n }
{
    let mut first = cof[a];
    let mut second = cof[b];
    for ka in 0..n {
        let sine = s[ka];
        let cosine = c[ka];
        first = first + sine * cof[a + 2 * ka + 1] + cosine * cof[a + 2 * ka + 2];
        second = second + sine * cof[b + 2 * ka + 1] + cosine * cof[b + 2 * ka + 2];
    }
    (first, second)
}

// The rows of the map k up to word 8, put into `AB`; the table says where the series of each starts.
fn time_map(
    cof: &SixMaps,
    index: CheckedIndex,
    starts: &SeriesStarts,
    k: usize,
    c: &[f32; 8],
    s: &[f32; 8],
    ab: &mut TimeMaps,
)
    requires { StartsRule starts.now × (k < 6) }
    ensures { let wave = wave_in c.now s.now in
        ab.new ≡ time_map_of wave cof.now index.entry.words.now k ab.old }
{
    let first = first_row(k);
    let rows = index.word(k, 8) + 1;
    let n = index.word(k, 9);
    for pair in 0..rows / 2 {
        let row = first + 2 * pair;
        let a = starts[row] as usize;
        let b = starts[row + 1] as usize;
        (ab[row], ab[row + 1]) = two_values(cof, a, b, n, c, s);
    }
    // The last of an odd number of rows, taken as both.
    if rows % 2 == 1 {
        let last = first + rows - 1;
        let a = starts[last] as usize;
        (ab[last], _) = two_values(cof, a, a, n, c, s);
    }
}

// Every map's daily series, worked out at one hour of Greenwich mean time.
pub(crate) fn virtim(cof: &SixMaps, index: CheckedIndex, gmt: f32) -> TimeMaps
    ensures { result ≡ virtim_of cof.now index.entry.words.now gmt }
{
    let Waves { c, s } = hour_waves(gmt);
    let mut ab = [0.0f32; AB_ROWS];
    for k in 0..6 {
        time_map(cof, index, &SERIES_STARTS, k, &c, &s, &mut ab);
    }
    ab
}
