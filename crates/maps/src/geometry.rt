// A path between two ends, after geometry.rs: its length, its two bearings and the places on it
// where the ionosphere is asked for. Degrees are always `Degrees`; inside, an angle that is worked
// with is a plain `f32` in radians.
ghost use Rattle.std.specs.Prelude.{◌≡◌, ◌^◌, if◌then◌else◌};
ghost use Rattle.std.specs.Float.Ieee.{le};
ghost use Rattle.base.specs.Single.{decimal};
ghost use Rattle.maps.specs.Geometry.{sign_of, clamped_cosine, acos_clamped, latitude_of, turned_of, folded_of, other_way, polar, close, nudge_of, nudged_of, place_of, end_longitude, end_of, cos_between, dlong_of, at_least_minimum, gcd_of, from_north, circle_of, count_of, distances_of, down_meridian, circle_longitude, on_circle, sample_of, pole_place, gmlat_of, point_of, control_point_if, rows_of, path_of, geomagnetic_of, mean_latitude, alatd_of, btr_deg, brt_deg};

use crate::inputs::MagneticPole;
use base::angle::{Degrees, Radians};
use base::constants::{PI, PI2, PIO2, RZ};
use base::elementary::{acos32, cos32, sin32};
use base::number::abs32;

const EPSLON: f32 = 1.0e-7;
// A receiver that is this near in both coordinates, in degrees, is moved off its transmitter.
const DDX: f32 = 0.03;

// The control points of a path, at most.
pub const POINTS: usize = 5;

// A place on the path where the ionosphere is asked for, with its distance from the transmitter and
// its latitude against the magnetic pole.
#[derive(Clone, Copy)]
pub struct ControlPoint {
    pub rd: Radians,
    pub lat: Radians,
    pub lon: Radians,
    pub gmlat: Radians,
}

#[derive(Clone, Copy)]
pub struct PathGeometry {
    // Great-circle distance.
    pub gcd: Radians,
    pub gcd_km: f32,
    // Bearings transmitter to receiver and back, clockwise from north.
    pub btr: Radians,
    pub brt: Radians,
    // The receiver's latitude as used: 0.03 degrees from the one typed where both ends coincide.
    pub rlatd: Degrees,
    // How many of the points are there; the rows past them are +0.0. A count beside five rows:
    // what allocates can fail and `path_geometry` cannot, and its definition `path_of` names both.
    pub count: u32,
    pub points: [ControlPoint; POINTS],
}

// A place in radians, with the sine and the cosine of its latitude.
#[derive(Clone, Copy)]
pub struct Place {
    pub lat: f32,
    pub lon: f32,
    pub sin: f32,
    pub cos: f32,
}

// The great circle through both ends.
#[derive(Clone, Copy)]
pub struct Circle {
    pub dlong: f32,
    pub gcd: f32,
    pub btr: f32,
    pub brt: f32,
}

// What every sample area of a path is found from.
#[derive(Clone, Copy)]
pub struct Track {
    pub tx: Place,
    pub rlong: f32,
    pub dlong: f32,
    pub btr_cos: f32,
}

// The bit of the sign that `sign` takes from b: set where b is below zero or a NaN. The bits of -0
// are 2^31 and those of every number below zero are more, so that with 2^31 - 1 added only these
// carry into the 33rd bit.
fn sign_from(b: f32) -> u32
    ensures { result ≡ (if le (decimal 0 1) b then 0 else 2 ^ 31) }
{
    if b != b {
        return 0x8000_0000;
    }
    let carried = f32::to_bits(b) as u64 + 0x7fff_ffff;
    (carried / 0x1_0000_0000 * 0x8000_0000) as u32
}

// As Fortran's SIGN: the size of a, negative where b is below zero or a NaN. -0 is not below zero.
// Where a is a NaN, so is the result.
pub fn sign(a: f32, b: f32) -> f32
    ensures { result ≡ sign_of a b }
{
    if a != a {
        return a;
    }
    f32::from_bits(sign_from(b) + f32::to_bits(a) % 0x8000_0000)
}

// q, but no more than 1 in size.
fn clamped(q: f32) -> f32
    ensures { result ≡ clamped_cosine q }
{
    if abs32(q) > 1.0 { sign(1.0, q) } else { q }
}

// The arc cosine of q; what rounding took beyond 1 counts as 1.
fn acos_clamped(q: f32) -> f32
    ensures { result ≡ acos_clamped q }
{
    acos32(clamped(q))
}

// The latitude whose sine is q.
fn latitude(q: f32) -> f32
    ensures { result ≡ latitude_of q }
{
    PIO2 - acos_clamped(q)
}

// x a whole turn nearer to zero.
fn turned(x: f32) -> f32
    ensures { result ≡ turned_of x }
{
    x - sign(PI2, x)
}

// x within half a turn.
fn folded(x: f32) -> f32
    ensures { result ≡ folded_of x }
{
    if abs32(x) > PI { turned(x) } else { x }
}

// The rest of the whole turn, where it is the other way round.
fn other_way(other: bool, x: f32) -> f32
    ensures { result ≡ other_way other x }
{
    if other { PI2 - x } else { x }
}

// Whether a place whose latitude has this cosine is near a pole.
fn is_polar(cos: f32) -> bool
    ensures { result ≡ polar cos }
{
    cos - EPSLON <= 0.0
}

fn is_close(a: Degrees, b: Degrees) -> bool
    ensures { result ≡ close a b }
{
    abs32(a.0 - b.0) <= DDX
}

fn nudge(rlat: Degrees) -> f32
    ensures { result ≡ nudge_of rlat }
{
    if rlat.0 < 0.0 { -DDX } else { DDX }
}

// The receiver's latitude, 0.03 degrees off where the ends coincide.
fn nudged(tlat: Degrees, tlong: Degrees, rlat: Degrees, rlong: Degrees) -> Degrees
    ensures { result ≡ nudged_of tlat tlong rlat rlong }
{
    if is_close(tlat, rlat) && is_close(tlong, rlong) {
        Degrees(tlat.0 - nudge(rlat))
    } else {
        rlat
    }
}

fn place_at(lat: f32, lon: f32) -> Place
    ensures { result ≡ place_of lat lon }
{
    Place {
        lat,
        lon,
        sin: sin32(lat),
        cos: cos32(lat),
    }
}

// Beyond 89.9 degrees every longitude counts as 0.
fn end_longitude(lat: Degrees, lon: Degrees) -> f32
    ensures { result ≡ end_longitude lat lon }
{
    if abs32(lat.0) > 89.9 {
        0.0
    } else {
        lon.to_radians().0
    }
}

fn end(lat: Degrees, lon: Degrees) -> Place
    ensures { result ≡ end_of lat lon }
{
    place_at(lat.to_radians().0, end_longitude(lat, lon))
}

// The cosine of the great circle between two places.
fn cos_between(a: Place, b: Place, dlong: f32) -> f32
    ensures { result ≡ cos_between a b dlong }
{
    a.sin * b.sin + a.cos * b.cos * cos32(dlong)
}

fn longitude_between(tlong: f32, rlong: f32, long_path: bool) -> f32
    ensures { result ≡ dlong_of tlong rlong long_path }
{
    let dlong = folded(tlong - rlong);
    if long_path { turned(dlong) } else { dlong }
}

// Ends on one another count as 0.000001 apart, which is 6.37 metres.
fn at_least_minimum(gcd: f32) -> f32
    ensures { result ≡ at_least_minimum gcd }
{
    if gcd < 0.000001 { 0.000001 } else { gcd }
}

// The great-circle distance.
fn distance(tx: Place, rx: Place, dlong: f32, long_path: bool) -> f32
    ensures { result ≡ gcd_of tx rx dlong long_path }
{
    let gcd = acos_clamped(cos_between(tx, rx, dlong));
    other_way(long_path, at_least_minimum(gcd))
}

// A bearing as an angle from north; from a pole every way is north or south.
fn from_north(from: Place, to: Place, gcd_sin: f32, gcd_cos: f32) -> f32
    ensures { result ≡ from_north from to gcd_sin gcd_cos }
{
    if is_polar(from.cos) {
        if from.lat <= 0.0 { 0.0 } else { PI }
    } else {
        acos_clamped((to.sin - from.sin * gcd_cos) / (from.cos * gcd_sin))
    }
}

// The great circle by both ends.
fn circle_by(tx: Place, rx: Place, long_path: bool) -> Circle
    ensures { result ≡ circle_of tx rx long_path }
{
    let dlong = longitude_between(tx.lon, rx.lon, long_path);
    let gcd = distance(tx, rx, dlong, long_path);
    let gcd_sin = sin32(gcd);
    let gcd_cos = cos32(gcd);
    let btr = from_north(tx, rx, gcd_sin, gcd_cos);
    let brt = from_north(rx, tx, gcd_sin, gcd_cos);
    Circle {
        dlong,
        gcd,
        btr: other_way(dlong > 0.0, btr),
        brt: other_way(dlong < 0.0, brt),
    }
}

fn point_count(gcd_km: f32) -> u32
    ensures { result ≡ count_of gcd_km }
{
    if gcd_km <= 2000.01 {
        1
    } else if gcd_km <= 4000.0 {
        3
    } else {
        5
    }
}

// The distances, nearest first: of five the outer two serve the E layer, the next two the F layer
// and the middle one all layers.
fn distances(gcd: f32, count: u32) -> [f32; POINTS]
    ensures { result ≡ distances_of gcd count }
{
    let r1 = 1000.0 / RZ;
    let r2 = r1 + r1;
    let half = gcd / 2.0;
    if count == 1 {
        [half, 0.0, 0.0, 0.0, 0.0]
    } else if count == 3 {
        [r1, half, gcd - r1, 0.0, 0.0]
    } else {
        [r1, r2, half, gcd - r2, gcd - r1]
    }
}

// Down the meridian of a transmitter near a pole.
fn down_meridian(tlat: f32, drf: f32) -> f32
    ensures { result ≡ down_meridian tlat drf }
{
    let rflt = tlat - sign(drf, tlat);
    if abs32(rflt) > PIO2 {
        PIO2 * sign(1.0, rflt)
    } else {
        rflt
    }
}

// The longitude of a sample area on the circle, from the sine and the cosine of its latitude.
fn circle_longitude(track: Track, drf: f32, drf_cos: f32, sin: f32, cos: f32) -> f32
    ensures { result ≡ circle_longitude track drf drf_cos sin cos }
{
    let tx = track.tx;
    if is_polar(cos) {
        // at a pole no longitude can be worked out
        tx.lon
    } else {
        let rflg = acos_clamped((drf_cos - sin * tx.sin) / (cos * tx.cos));
        folded(tx.lon - sign(other_way(drf >= PI, rflg), track.dlong))
    }
}

fn on_circle(track: Track, drf: f32) -> Place
    ensures { result ≡ on_circle track drf }
{
    let tx = track.tx;
    let drf_cos = cos32(drf);
    let rflt = latitude(drf_cos * tx.sin + sin32(drf) * tx.cos * track.btr_cos);
    let sin = sin32(rflt);
    let cos = cos32(rflt);
    let rflg = circle_longitude(track, drf, drf_cos, sin, cos);
    Place {
        lat: rflt,
        lon: rflg,
        sin,
        cos,
    }
}

// Where the sample area at the distance drf lies.
fn sample(track: Track, drf: f32) -> Place
    ensures { result ≡ sample_of track drf }
{
    let tx = track.tx;
    if tx.cos - EPSLON < 0.0 {
        place_at(down_meridian(tx.lat, drf), track.rlong)
    } else {
        on_circle(track, drf)
    }
}

fn pole_place(pole: MagneticPole) -> Place
    ensures { result ≡ pole_place pole }
{
    place_at(pole.lat.to_radians().0, pole.lon.to_radians().0)
}

// The geomagnetic latitude of a place against a pole.
fn gmlat(pole: Place, at: Place) -> f32
    ensures { result ≡ gmlat_of pole at }
{
    latitude(cos_between(pole, at, at.lon - pole.lon))
}

fn control_point(track: Track, pole: Place, drf: f32) -> ControlPoint
    ensures { result ≡ point_of track pole drf }
{
    let at = sample(track, drf);
    ControlPoint {
        rd: Radians(drf),
        lat: Radians(at.lat),
        lon: Radians(at.lon),
        gmlat: Radians(gmlat(pole, at)),
    }
}

// A control point, or +0.0 in every field where it is absent.
fn row(track: Track, pole: Place, drf: f32, present: bool) -> ControlPoint
    ensures { result ≡ control_point_if track pole drf present }
{
    if present {
        control_point(track, pole, drf)
    } else {
        ControlPoint {
            rd: Radians(0.0),
            lat: Radians(0.0),
            lon: Radians(0.0),
            gmlat: Radians(0.0),
        }
    }
}

fn rows(track: Track, pole: Place, gcd: f32, count: u32) -> [ControlPoint; POINTS]
    ensures { result ≡ rows_of track pole gcd count }
{
    // One by one: of `array::from_fn` a proof does not learn that its closure stays as it is.
    let rd = distances(gcd, count);
    let p1 = row(track, pole, rd[0], 0 < count);
    let p2 = row(track, pole, rd[1], 1 < count);
    let p3 = row(track, pole, rd[2], 2 < count);
    let p4 = row(track, pole, rd[3], 3 < count);
    let p5 = row(track, pole, rd[4], 4 < count);
    [p1, p2, p3, p4, p5]
}

// Length, bearings and control points of the path between two ends in degrees, the short way or,
// with `long_path`, the long way round. Nothing is refused.
pub fn path_geometry(
    tlat: Degrees,
    tlong: Degrees,
    rlat: Degrees,
    rlong: Degrees,
    long_path: bool,
    pole: MagneticPole,
) -> PathGeometry
    ensures { result ≡ path_of tlat tlong rlat rlong long_path pole }
{
    // The ends come one by one, and not as a `Route`: this function is public, and `path_of` takes
    // them so.
    let rlatd = nudged(tlat, tlong, rlat, rlong);
    let tx = end(tlat, tlong);
    let rx = end(rlatd, rlong);
    let c = circle_by(tx, rx, long_path);
    let gcd_km = c.gcd * RZ;
    let count = point_count(gcd_km);
    let track = Track {
        tx,
        rlong: rx.lon,
        dlong: c.dlong,
        btr_cos: cos32(c.btr),
    };
    let points = rows(track, pole_place(pole), c.gcd, count);
    PathGeometry {
        gcd: Radians(c.gcd),
        gcd_km,
        btr: Radians(c.btr),
        brt: Radians(c.brt),
        rlatd,
        count,
        points,
    }
}

// The latitude against the magnetic pole, in radians, of a place in radians.
pub fn geomagnetic_latitude(pole: MagneticPole, lat: Radians, lon: Radians) -> Radians
    ensures { result ≡ geomagnetic_of pole lat lon }
{
    Radians(gmlat(pole_place(pole), place_at(lat.0, lon.0)))
}

// The latitude of one point, or the mean of the first three where there are more, without its sign.
fn mean_latitude(count: u32, lat1: f32, lat2: f32, lat3: f32) -> f32
    ensures { result ≡ mean_latitude count lat1 lat2 lat3 }
{
    if count == 1 {
        abs32(lat1)
    } else {
        abs32((lat1 + lat2 + lat3) / 3.0)
    }
}

// The path's latitude in degrees, without its sign: of its one point, or the mean of the first
// three, with five points too.
pub fn alatd(g: PathGeometry) -> Degrees
    ensures { result ≡ alatd_of g }
{
    let [p1, p2, p3, ..] = g.points;
    Radians(mean_latitude(g.count, p1.lat.0, p2.lat.0, p3.lat.0)).to_degrees()
}

// The bearing from transmitter to receiver in degrees.
pub fn btr_deg(g: PathGeometry) -> Degrees
    ensures { result ≡ btr_deg g }
{
    // Beside `brt_deg`, and not one for both: each is public and named in docs/CONTRACTS.md.
    g.btr.to_degrees()
}

// The bearing from receiver to transmitter in degrees.
pub fn brt_deg(g: PathGeometry) -> Degrees
    ensures { result ≡ brt_deg g }
{
    g.brt.to_degrees()
}
