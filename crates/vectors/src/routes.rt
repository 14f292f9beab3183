// The paths: distance, bearings and control points of each route of data/routes.bin, and the
// magnetic field at each point. A row is 49 little-endian words: the route's seven numbers, six
// figures, the number of points and seven figures for each of five. A row that starts with ffffffff
// holds the name of the routes that follow.
ghost use Rattle.std.specs.Prelude.{◌+◌, ◌*◌, ◌<◌, ◌≤◌, length};

use crate::row::{is_float, print_groups};
use base::angle::Degrees;
use base::words;
use maps::geometry::{ControlPoint, POINTS, PathGeometry};
use maps::inputs::MagneticPole;
use maps::{geometry, magnetic};
use std::rt::Files;
use system::opened;

// The bytes of a row.
const ROW: usize = 196;

// The word k of a row.
fn word(row: &[u8], k: usize) -> u32
    requires { k < 64 }
{
    words::word(row, 4 * k)
}

fn float(row: &[u8], k: usize) -> f32
    requires { k < 64 }
{
    words::float(row, 4 * k)
}

fn path(row: &[u8]) -> PathGeometry {
    let pole = MagneticPole {
        lat: Degrees(float(row, 5)),
        lon: Degrees(float(row, 6)),
    };
    geometry::path_geometry(
        Degrees(float(row, 0)),
        Degrees(float(row, 1)),
        Degrees(float(row, 2)),
        Degrees(float(row, 3)),
        word(row, 4) != 0,
        pole,
    )
}

fn is_head(row: &[u8], g: PathGeometry) -> bool {
    is_float(g.gcd.0, word(row, 7))
        && is_float(g.gcd_km, word(row, 8))
        && is_float(g.btr.0, word(row, 9))
        && is_float(g.brt.0, word(row, 10))
        && is_float(g.rlatd.0, word(row, 11))
        && is_float(geometry::alatd(g).0, word(row, 12))
        && g.count == word(row, 13)
}

// The place of a point, from the word k on.
fn is_place(row: &[u8], k: usize, p: ControlPoint) -> bool
    requires { k < 50 }
{
    is_float(p.rd.0, word(row, k))
        && is_float(p.lat.0, word(row, k + 1))
        && is_float(p.lon.0, word(row, k + 2))
        && is_float(p.gmlat.0, word(row, k + 3))
}

// The field at a point that is there, from the word k on.
fn is_field(row: &[u8], k: usize, p: ControlPoint) -> bool
    requires { k < 50 }
{
    let m = magnetic::magvar(p.lat, p.lon);
    is_float(m.gyz, word(row, k))
        && is_float(m.gmdip.0, word(row, k + 1))
        && is_float(m.east_lon.0, word(row, k + 2))
}

// The field of a point that is absent: three zeros.
fn is_blank(row: &[u8], k: usize) -> bool
    requires { k < 50 }
{
    word(row, k) == 0 && word(row, k + 1) == 0 && word(row, k + 2) == 0
}

fn is_point(row: &[u8], i: usize, count: u32, p: ControlPoint) -> bool
    requires { i < 5 }
{
    let k = 14 + 7 * i;
    if !is_place(row, k, p) {
        return false;
    }
    if (i as u32) < count {
        is_field(row, k + 4, p)
    } else {
        is_blank(row, k + 4)
    }
}

fn is_route(row: &[u8]) -> bool {
    let g = path(row);
    if !is_head(row, g) {
        return false;
    }
    (0..POINTS).all(|i| is_point(row, i, g.count, g.points[i]))
}

fn is_heading(row: &[u8]) -> bool {
    words::word(row, 0) == 0xffff_ffff
}

pub fn replay(rt: &impl Files) {
    if let Some(mut file) = opened(rt, b"routes.bin") {
        print_groups(
            &mut file,
            100000000,
            &mut [0u8; ROW],
            b"routes",
            4,
            |row| is_heading(row),
            |row| is_route(row),
        );
    }
}
