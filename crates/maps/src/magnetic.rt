// Field strength and dip 300 km over a point, after magnetic.rs: a series to degree 6 with the
// numbers that Jensen and Cain gave for 1960.
ghost use Rattle.std.specs.Prelude.{◌≡◌, ◌+◌, ◌<◌, ◌≤◌, pos};
ghost use Rattle.std.specs.Float.{binary32};
ghost use Rattle.std.specs.Float.Ieee.{of_int};
ghost use Rattle.maps.specs.Magnetic.{table_row, clamped_place, multiple_of, multiples_of, powers_of, placed_of, at7, element_of, state, order_of, orders_of, degree_of, expansion_of, magfin_of, east_of, gob_of, magvar_of};

use base::angle::{Degrees, Radians};
use base::elementary::{atan32, cos32, sin32};
use base::number::sqrt32;

// Latitudes beyond this, 89.9 degrees, are pinned to it.
const RD: f32 = 1.56905124;
// The radius in metres that the coefficients are for.
const HC: f32 = 6371200.0;

// What the function two degrees below is taken off with.
const CT: [[f32; 7]; 7] = [
    [0.0, 0.0, 0.0, 0.0, 0.0, 0.0, 0.0],
    [0.0, 0.0, 0.0, 0.0, 0.0, 0.0, 0.0],
    [0.33333333, 0.0, 0.0, 0.0, 0.0, 0.0, 0.0],
    [0.26666667, 0.2, 0.0, 0.0, 0.0, 0.0, 0.0],
    [0.25714286, 0.22857142, 0.14285714, 0.0, 0.0, 0.0, 0.0],
    [
        0.25396825, 0.23809523, 0.19047619, 0.11111111, 0.0, 0.0, 0.0,
    ],
    [
        0.25252525, 0.24242424, 0.21212121, 0.16161616, 0.09090909, 0.0, 0.0,
    ],
];

// Jensen-Cain 1960 G coefficients, in gauss.
const G: [[f32; 7]; 7] = [
    [0.0, 0.0, 0.0, 0.0, 0.0, 0.0, 0.0],
    [0.304112, 0.021474, 0.0, 0.0, 0.0, 0.0, 0.0],
    [0.024035, -0.051253, -0.013381, 0.0, 0.0, 0.0, 0.0],
    [-0.031518, 0.062130, -0.024898, -0.006496, 0.0, 0.0, 0.0],
    [
        -0.041794, -0.045298, -0.021795, 0.007008, -0.002044, 0.0, 0.0,
    ],
    [
        0.016256, -0.034407, -0.019447, -0.000608, 0.002775, 0.000697, 0.0,
    ],
    [
        -0.019523, -0.004853, 0.003212, 0.021413, 0.001051, 0.000227, 0.001115,
    ],
];

// Jensen-Cain 1960 H coefficients, in gauss.
const H: [[f32; 7]; 7] = [
    [0.0, 0.0, 0.0, 0.0, 0.0, 0.0, 0.0],
    [0.0, -0.057989, 0.0, 0.0, 0.0, 0.0, 0.0],
    [0.0, 0.033124, -0.001579, 0.0, 0.0, 0.0, 0.0],
    [0.0, 0.014870, -0.004075, 0.00021, 0.0, 0.0, 0.0],
    [0.0, -0.011825, 0.010006, 0.00043, 0.001385, 0.0, 0.0],
    [0.0, -0.000796, -0.002, 0.004597, 0.002421, -0.001218, 0.0],
    [
        0.0, -0.005758, -0.008735, -0.003406, -0.000118, -0.001116, -0.000325,
    ],
];

// Row n of the three tables. It is read once for a degree: each reading of a constant table copies
// the whole table.
#[derive(Clone, Copy)]
struct Row {
    ct: [f32; 7],
    g: [f32; 7],
    h: [f32; 7],
}

fn row_of(n: usize) -> Row
    requires { n < 7 }
    ensures { result ≡ table_row n }
{
    Row {
        ct: CT[n],
        g: G[n],
        h: H[n],
    }
}

// Latitude and longitude. Not a tuple, as this and the next types of two or three numbers are named
// by definitions of specs/Magnetic.antt and by laws of the crate results.
#[derive(Clone, Copy)]
pub struct Position {
    pub p1: Radians,
    pub p2: Radians,
}

// The polar clamp: a latitude beyond `RD` is pinned to it, and the longitude is then 0.
fn clamped(lat: Radians, east_lon: Radians) -> Position
    ensures { result ≡ clamped_place lat east_lon }
{
    if lat.0 > RD {
        Position {
            p1: Radians(RD),
            p2: Radians(0.0),
        }
    } else if lat.0 < -RD {
        Position {
            p1: Radians(-RD),
            p2: Radians(0.0),
        }
    } else {
        Position {
            p1: lat,
            p2: east_lon,
        }
    }
}

// The sines and cosines of 0 to 6 times the longitude. Two arrays, as the definitions `multiple_of`
// and `placed_of` have them.
#[derive(Clone, Copy)]
pub struct Multiples {
    pub sp: [f32; 7],
    pub cp: [f32; 7],
}

// The m-th of each, by the rule for the sum of two angles.
fn multiple(m: usize, v: Multiples) -> Multiples
    requires { (1 ≤ m) × (m < 7) }
    ensures { result ≡ multiple_of m v }
{
    let s1 = v.sp[1];
    let c1 = v.cp[1];
    let s = v.sp[m - 1];
    let c = v.cp[m - 1];
    let mut w = v;
    w.sp[m] = s1 * c + c1 * s;
    w.cp[m] = c1 * c - s1 * s;
    w
}

// All of them: from the first on, each from the one before.
fn multiples_of(phi: Radians) -> Multiples
    ensures { result ≡ multiples_of phi }
{
    let sp = [0.0, sin32(phi.0), 0.0, 0.0, 0.0, 0.0, 0.0];
    let cp = [1.0, cos32(phi.0), 0.0, 0.0, 0.0, 0.0, 0.0];
    let mut v = Multiples { sp, cp };
    for m in 2..7 {
        v = multiple(m, v);
    }
    v
}

// Powers 2 to 8 of the ratio of the reference radius to the point's.
fn powers(ar: f32) -> [f32; 7]
    ensures { result ≡ powers_of ar }
{
    let mut aor = [0.0f32; 7];
    aor[0] = ar * ar;
    aor[1] = aor[0] * ar;
    for m in 2..7 {
        aor[m] = ar * aor[m - 1];
    }
    aor
}

// What the expansion takes of a point: the sine and the cosine of its latitude, the multiples of
// its longitude and the powers of the ratio of radii.
#[derive(Clone, Copy)]
pub struct Place {
    pub c: f32,
    pub s: f32,
    pub sp: [f32; 7],
    pub cp: [f32; 7],
    pub aor: [f32; 7],
}

// The point as the expansion takes it: pinned near the poles, `height_m` metres up.
fn placed(lat: Radians, east_lon: Radians, height_m: f32) -> Place
    ensures { result ≡ placed_of lat east_lon height_m }
{
    let q = clamped(lat, east_lon);
    let c = sin32(q.p1.0);
    let Multiples { sp, cp } = multiples_of(q.p2);
    Place {
        c,
        s: sqrt32(1.0 - c * c),
        sp,
        cp,
        aor: powers(HC / (HC + height_m)),
    }
}

// The Rust's `t[n][m]`; here the seven rows stand one after the other, as the definitions `at7` and
// `orders_of` have them.
fn at(t: &[f32; 49], n: usize, m: usize) -> f32
    requires { (n < 7) × (m < 7) }
    ensures { result ≡ at7 t.now n m }
{
    t[n * 7 + m]
}

// `p[n][m]` and `dp[n][m]`.
#[derive(Clone, Copy)]
pub struct Element {
    pub p: f32,
    pub dp: f32,
}

// They follow from the degrees below; `ct` is `CT[n][m]`.
fn element_of<'a>(
    c: f32,
    s: f32,
    ct: f32,
    n: usize,
    m: usize,
    p: &'a [f32; 49],
    dp: &'a [f32; 49],
) -> Element
    requires { (1 ≤ n) × (n < 7) × (m ≤ n) }
    ensures { result ≡ element_of c s ct n m p.now dp.now }
{
    if n == m {
        let below = at(p, n - 1, n - 1);
        Element {
            p: s * below,
            dp: s * at(dp, n - 1, n - 1) + c * below,
        }
    } else if n == 1 {
        Element { p: c, dp: -s }
    } else {
        let below = at(p, n - 1, m);
        Element {
            p: c * below - ct * at(p, n - 2, m),
            dp: c * at(dp, n - 1, m) - s * below - ct * at(dp, n - 2, m),
        }
    }
}

// m as an `f32`.
fn whole(m: usize) -> f32
    requires { m ≤ 7 }
    ensures { result ≡ of_int binary32 (pos m) }
{
    std::num::nearest_u32_to_f32(m as u32)
}

// A degree's three sums.
#[derive(Clone, Copy)]
pub struct Sums {
    pub sumr: f32,
    pub sumt: f32,
    pub sump: f32,
}

// All orders of the degree n, summed: `p[n][m]` and `dp[n][m]` are stored, and the terms of the
// order m added to the sums.
fn orders(x: Place, n: usize, p: &mut [f32; 49], dp: &mut [f32; 49]) -> Sums
    requires { (1 ≤ n) × (n < 7) }
    ensures { state p.new dp.new result ≡ orders_of x n p.old dp.old }
{
    let t = row_of(n);
    let mut v = Sums {
        sumr: 0.0,
        sumt: 0.0,
        sump: 0.0,
    };
    for m in 0..=n {
        let e = element_of(x.c, x.s, t.ct[m], n, m, p, dp);
        let g = t.g[m];
        let h = t.h[m];
        let sp = x.sp[m];
        let cp = x.cp[m];
        let fm = whole(m);
        let ts = g * cp + h * sp;
        let k = n * 7 + m;
        p[k] = e.p;
        dp[k] = e.dp;
        v = Sums {
            sumr: v.sumr + e.p * ts,
            sumt: v.sumt + e.dp * ts,
            sump: v.sump + fm * e.p * (-g * sp + h * cp),
        };
    }
    v
}

// The field's three sums.
#[derive(Clone, Copy)]
pub struct Field {
    pub bv: f32,
    pub bn: f32,
    pub bphi: f32,
}

// The degree n: its sums, weighted, go into the field's.
fn degree(x: Place, n: usize, p: &mut [f32; 49], dp: &mut [f32; 49], b: Field) -> Field
    requires { (1 ≤ n) × (n < 7) }
    ensures { let before = state p.old dp.old b in
        state p.new dp.new result ≡ degree_of x n before }
{
    let v = orders(x, n, p, dp);
    let fn_ = whole(n + 1);
    let aor = x.aor[n];
    Field {
        bv: b.bv + aor * fn_ * v.sumr,
        bn: b.bn - aor * v.sumt,
        bphi: b.bphi - aor * v.sump,
    }
}

// The degrees 1 to 6, summed.
fn expansion(x: Place) -> Field
    ensures { result ≡ expansion_of x }
{
    let mut p = [0.0f32; 49];
    p[0] = 1.0;
    let mut dp = [0.0f32; 49];
    let mut b = Field {
        bv: 0.0,
        bn: 0.0,
        bphi: 0.0,
    };
    for n in 1..7 {
        b = degree(x, n, &mut p, &mut dp, b);
    }
    b
}

// The field vector in the Rust's left-handed frame, in gauss.
#[derive(Clone, Copy)]
pub struct Une {
    pub up: f32,
    pub north: f32,
    pub east: f32,
}

// The magnetic field, up, north and east, in gauss, at a latitude and an east longitude and at a
// height in metres.
pub fn magfin(lat: Radians, east_lon: Radians, height_m: f32) -> Une
    ensures { result ≡ magfin_of lat east_lon height_m }
{
    let x = placed(lat, east_lon, height_m);
    let b = expansion(x);
    Une {
        up: -b.bv,
        north: b.bn,
        east: -b.bphi / x.s,
    }
}

// Gyrofrequency, MHz; Rawer's modified dip angle; the point's longitude as an east longitude.
#[derive(Clone, Copy)]
pub struct MagneticVars {
    pub gyz: f32,
    pub gmdip: Radians,
    pub east_lon: Radians,
}

// A longitude, negative west, as an east longitude: a full turn is added where it is below 0.
pub fn east(lon: Radians) -> Radians
    ensures { result ≡ east_of lon }
{
    let c360 = Degrees(360.0).to_radians();
    if lon.0 < 0.0 {
        Radians(c360.0 + lon.0)
    } else {
        lon
    }
}

// The cosine of the latitude, kept above 0, since the dip angle is divided by its root.
fn gob(lat: Radians) -> f32
    ensures { result ≡ gob_of lat }
{
    let cosine = cos32(lat.0);
    if cosine <= 0.000001 { 0.000001 } else { cosine }
}

// Gyrofrequency in MHz, Rawer's modified dip and the east longitude at a control point, from the
// field 300 km over it.
pub fn magvar(lat: Radians, lon: Radians) -> MagneticVars
    ensures { result ≡ magvar_of lat lon }
{
    let east_lon = east(lon);
    let une = magfin(lat, east_lon, 300000.0);
    let nn = une.north * une.north;
    let ee = une.east * une.east;
    let hhm = sqrt32(une.up * une.up + nn + ee);
    let tmp = nn + ee;
    let dip = atan32(-une.up / sqrt32(tmp));
    // Rawer's modified dip mu: tan(mu) = I / sqrt(cos lat), where I is the dip.
    let gmdip = atan32(dip / sqrt32(gob(lat)));
    MagneticVars {
        gyz: 2.8 * hhm,
        gmdip: Radians(gmdip),
        east_lon,
    }
}
