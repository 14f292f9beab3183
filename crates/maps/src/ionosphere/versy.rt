// VERSY: the six maps at a place.
ghost use Rattle.std.specs.Prelude.{◌≡◌, ◌+◌, ◌-◌, ◌%◌, ◌<◌, ◌≤◌, slice_index, Float};
ghost use Rattle.base.specs.Fill.{fill, tabulate};
ghost use Rattle.base.specs.Index.{map_word};
ghost use Rattle.base.specs.Blend.{IC};
ghost use Rattle.maps.specs.Versy.{sx_power, geographic_of, waves_of, rung_of, zeros, elements, gamma_of, sum_of, three_at, gammas_of};

use crate::ionosphere::index::CheckedIndex;
use crate::ionosphere::virtim::{TimeMaps, first_row};
use base::elementary::{cos64, sin64};
use base::number::{narrow, narrowed, widen};

// A map's geographic functions at a place.
type Basis = [f64; 76];

// The cosine and the sine of 1 to 8 times the longitude, each times that power of the latitude's
// cosine. All six maps share them.
fn waves(gob: f32, clg: f32) -> [f64; 16]
    ensures { result ≡ waves_of gob clg }
{
    let wide = widen(gob);
    let mut out = [0.0f64; 16];
    let mut cx = wide;
    let mut t = widen(clg);
    for j in 0..8 {
        out[2 * j] = cx * cos64(t);
        out[2 * j + 1] = cx * sin64(t);
        cx = cx * wide;
        t = widen(std::num::nearest_u32_to_f32(j as u32 + 2) * clg);
    }
    out
}

// The powers 0 to k of sx.
fn powers(g: &mut Basis, sx: f64, k: usize)
    requires { (1 ≤ k) × (k ≤ 75) }
    ensures { g.new ≡ fill (sx_power sx) 0 g.old (k + 1) }
{
    g[0] = 1.0;
    let mut power = sx;
    for n in 1..k + 1 {
        g[n] = power;
        power = sx * power;
    }
}

// The functions of a harmonic, in the places after `below` up to `end`: its waves c and s, both
// times sx, both times sx once more, and so on.
fn rung(g: &mut Basis, sx: f64, c: f64, s: f64, below: usize, end: usize)
    requires { (below + 2 ≤ end) × (end ≤ 75) × ((end - below) % 2 ≡ 0) }
    ensures { g.new ≡ fill (rung_of sx c s) (below + 1) g.old (end - below) }
{
    let mut cosine = c;
    let mut sine = s;
    // A `while`, for speed: with a `for`, by `step_by` or over the pairs, `basis` takes a quarter more.
    let mut k = below + 1;
    while k < end {
        g[k] = cosine;
        g[k + 1] = sine;
        cosine = sx * cosine;
        sine = sx * sine;
        k += 2;
    }
}

// The geographic functions of the map k, filled in along its ladder of words. A word that equals
// the one before it ends the ladder, and what is past its end stays 0.
fn basis(index: CheckedIndex, k: usize, sx: f64, waves: &[f64; 16], g: &mut Basis)
    requires { (k < 6) × (g.old ≡ zeros) }
    ensures { (gob clg : Float) →
        waves.now ≡ waves_of gob clg →
        g.new ≡ tabulate (geographic_of (map_word index.entry.words.now k) sx gob clg) 76 }
{
    let mut below = index.word(k, 0);
    powers(g, sx, below);
    for j in 0..8 {
        let end = index.word(k, j + 1);
        if end == below {
            break;
        }
        rung(g, sx, waves[2 * j], waves[2 * j + 1], below, end);
        below = end;
    }
}

// A map's series at a place: where its coefficients start in `AB`, the functions that they are
// multiplied with, and the place of its last term.
#[derive(Clone, Copy)]
struct Series<'a> {
    ab: &'a TimeMaps,
    start: usize,
    g: &'a Basis,
    last: usize,
    ghost inside: { (last ≤ 75) × (start + last < 318) },
}

impl<'a> Series<'a> {
    // The series of the map k over its geographic functions.
    fn of_map(maps: HourMaps<'a>, k: usize, g: &'a Basis) -> Series<'a>
        requires { k < 6 }
        ensures coefficients { result.ab.now ≡ maps.entry.ab.now }
        ensures functions { result.g.now ≡ g.now }
        ensures start { result.start ≡ slice_index IC k - 1 }
        ensures last { result.last ≡ map_word maps.entry.index.words.now k 8 }
    {
        Series {
            ab: maps.ab,
            start: first_row(k),
            g,
            last: maps.index.word(k, 8),
        }
    }

    // The term 0 alone.
    fn first(self) -> f64
        ensures { let s = self.entry in
            result ≡ sum_of s.ab.now s.start (elements s.g.now) 0 }
    {
        self.g[0] * widen(self.ab[self.start])
    }

    // The sum of the terms 0 to k, from that of those before k. Each addition is narrowed before the
    // next one.
    fn next(self, sum: f64, k: usize) -> f64
        requires { (1 ≤ k)
            × (k ≤ self.last)
            × (sum ≡ sum_of self.ab.now self.start (elements self.g.now) (k - 1)) }
        ensures { let s = self.entry in
            result ≡ sum_of s.ab.now s.start (elements s.g.now) k }
    {
        narrowed(sum) + widen(self.ab[self.start + k]) * self.g[k]
    }

    // The value of the map, from the sum of the terms 0 to n.
    fn finished(self, sum: f64, n: usize) -> f32
        requires { (n ≤ self.last) × (sum ≡ sum_of self.ab.now self.start (elements self.g.now) n) }
        ensures { let s = self.entry in
            result ≡ gamma_of s.ab.now s.start (elements s.g.now) s.last }
    {
        let mut gamma = sum;
        for k in n + 1..self.last + 1 {
            gamma = self.next(gamma, k);
        }
        narrow(gamma)
    }
}

// The values of three maps: together as far as the shortest, the first two as far as the shorter of
// them, and then each alone. Each addition waits for the one before it in its own series: three at a
// time take no longer than one.
fn three_series(x: Series, y: Series, z: Series) -> (f32, f32, f32)
    ensures first { let s = x.entry in
        result.0 ≡ gamma_of s.ab.now s.start (elements s.g.now) s.last }
    ensures second { let s = y.entry in
        result.1 ≡ gamma_of s.ab.now s.start (elements s.g.now) s.last }
    ensures third { let s = z.entry in
        result.2 ≡ gamma_of s.ab.now s.start (elements s.g.now) s.last }
{
    let m = x.last.min(y.last);
    let n = m.min(z.last);
    let mut a = x.first();
    let mut b = y.first();
    let mut c = z.first();
    'three: for k in 1..n + 1 {
        a = x.next(a, k);
        b = y.next(b, k);
        c = z.next(c, k);
    }
    'two: for k in n + 1..m + 1 {
        a = x.next(a, k);
        b = y.next(b, k);
    }
    (x.finished(a, m), y.finished(b, m), z.finished(c, n))
}

// The maps' values at a place: sporadic E in g1 to g3, then foF2, the M3000 factor and foE.
#[derive(Clone, Copy)]
pub struct Gammas {
    pub g1: f32,
    pub g2: f32,
    pub g3: f32,
    pub g4: f32,
    pub g5: f32,
    pub g6: f32,
}

// The maps at an hour: their coefficients, and the words by which those are read.
#[derive(Clone, Copy)]
pub(crate) struct HourMaps<'a> {
    pub(crate) ab: &'a TimeMaps,
    pub(crate) index: CheckedIndex<'a>,
}

impl<'a> HourMaps<'a> {
    // Both, for as long as the one that is lent for the shorter time.
    pub(crate) fn new(ab: &'a TimeMaps, index: CheckedIndex<'a>) -> HourMaps<'a>
        ensures coefficients { result.ab.now ≡ ab.now }
        ensures words { result.index.words.now ≡ index.entry.words.now }
    {
        HourMaps { ab, index }
    }

    // The maps k, k + 1 and k + 2 at a place, sx being the first two maps' and sz the third's.
    fn three(self, k: usize, sx: f64, sz: f64, waves: &[f64; 16]) -> (f32, f32, f32)
        requires { k ≤ 3 }
        ensures { let m = self.entry in
            (gob clg : Float) →
            waves.now ≡ waves_of gob clg →
            result ≡ three_at m.ab.now m.index.words.now k sx sz gob clg }
    {
        let mut ga = [0.0f64; 76];
        basis(self.index, k, sx, waves, &mut ga);
        let mut gb = [0.0f64; 76];
        basis(self.index, k + 1, sx, waves, &mut gb);
        let mut gc = [0.0f64; 76];
        basis(self.index, k + 2, sz, waves, &mut gc);
        three_series(
            Series::of_map(self, k, &ga),
            Series::of_map(self, k + 1, &gb),
            Series::of_map(self, k + 2, &gc),
        )
    }

    // All six at a place of dip, latitude and east longitude clg; gob is the latitude's cosine.
    pub(crate) fn versy(self, dip: f32, lat: f32, clg: f32, gob: f32) -> Gammas
        ensures { let m = self.entry in
            result ≡ gammas_of m.ab.now m.index.words.now dip lat clg gob }
    {
        let w = waves(gob, clg);
        let sx = sin64(widen(dip));
        let sl = sin64(widen(lat));
        let (g1, g2, g3) = self.three(0, sx, sx, &w);
        let (g4, g5, g6) = self.three(3, sx, sl, &w);
        Gammas {
            g1,
            g2,
            g3,
            g4,
            g5,
            g6,
        }
    }
}
