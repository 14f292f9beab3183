// A sheet with names, decimals and units beside the bits, for a person to read.
ghost use Rattle.std.specs.Prelude.{◌≡◌, ◌+◌, ◌*◌, ◌≤◌, ◌<◌, length, take};
ghost use Rattle.io.specs.Counts.{IsPrefixLen};
ghost use Rattle.maps.specs.Inputs.{is_long};
ghost use Rattle.listing.specs.Text.{Puts, HasRoom};
ghost use Rattle.listing.specs.Page.{page_row, name_text, unit_text, value_text, row_text, rows_text, long_text, fields_text, point_text, there_text, first_points, page_text};

use crate::answer::hex;
use crate::decimal::put_float;
use crate::text::Text;
use crate::unit::Unit;
use base::number;
use maps::figures::FIGURES;
use maps::inputs::Inputs;

// More than the bytes of the longest page.
pub const PAGE: usize = 12800;

// The numbers of a page by name, in 12 letters, and below by unit: the fields after the month, the
// fields after the flag, the figures of the path, the figures of a point.
const NAMES: [[u8; 12]; 47] = [
    *b"ssn         ",
    *b"gmt         ",
    *b"tlat        ",
    *b"tlong       ",
    *b"rlat        ",
    *b"rlong       ",
    *b"psc e       ",
    *b"psc f1      ",
    *b"psc f2      ",
    *b"psc es      ",
    *b"pole lat    ",
    *b"pole lon    ",
    *b"gcd         ",
    *b"gcd_km      ",
    *b"btr         ",
    *b"brt         ",
    *b"rlatd       ",
    *b"alatd       ",
    *b"rd          ",
    *b"lat         ",
    *b"lon         ",
    *b"gmlat       ",
    *b"gyz         ",
    *b"gmdip       ",
    *b"east_lon    ",
    *b"fi[0]       ",
    *b"fi[1]       ",
    *b"fi[2]       ",
    *b"yi[0]       ",
    *b"yi[1]       ",
    *b"yi[2]       ",
    *b"hi[0]       ",
    *b"hi[1]       ",
    *b"hi[2]       ",
    *b"f2m3        ",
    *b"hpf2        ",
    *b"rat         ",
    *b"abiy        ",
    *b"clck        ",
    *b"zenang      ",
    *b"zenmax      ",
    *b"fs[0]       ",
    *b"fs[1]       ",
    *b"fs[2]       ",
    *b"hs          ",
    *b"sigma       ",
    *b"epsilon     ",
];

const UNITS: [Unit; 47] = [
    Unit::Bare,
    Unit::Hours,
    Unit::Degrees,
    Unit::Degrees,
    Unit::Degrees,
    Unit::Degrees,
    Unit::Bare,
    Unit::Bare,
    Unit::Bare,
    Unit::Bare,
    Unit::Degrees,
    Unit::Degrees,
    Unit::Radians,
    Unit::Kilometres,
    Unit::Radians,
    Unit::Radians,
    Unit::Degrees,
    Unit::Degrees,
    Unit::Radians,
    Unit::Radians,
    Unit::Radians,
    Unit::Radians,
    Unit::Megahertz,
    Unit::Radians,
    Unit::Radians,
    Unit::Megahertz,
    Unit::Megahertz,
    Unit::Megahertz,
    Unit::Kilometres,
    Unit::Kilometres,
    Unit::Kilometres,
    Unit::Kilometres,
    Unit::Kilometres,
    Unit::Kilometres,
    Unit::Bare,
    Unit::Kilometres,
    Unit::Bare,
    Unit::Bare,
    Unit::Hours,
    Unit::Degrees,
    Unit::Degrees,
    Unit::Megahertz,
    Unit::Megahertz,
    Unit::Megahertz,
    Unit::Kilometres,
    Unit::MhosPerMetre,
    Unit::Bare,
];

pub(crate) fn name(k: usize) -> [u8; 12]
    requires { k < 47 }
    ensures { result ≡ name_text (page_row k) }
{
    NAMES[k]
}

// The unit after two blanks, where there is one.
pub(crate) fn unit(k: usize) -> &'static [u8]
    requires { k < 47 }
    ensures { result.now ≡ unit_text (page_row k).unit }
{
    UNITS[k].words()
}

// A number: its decimals and its bits.
#[tactic(auto, using(crate::proofs::Sizes::sizes), unfolding(crate::specs::Page::value_text))]
fn put_value(text: &mut Text, x: f32)
    requires { HasRoom text.old 54 }
    ensures { Puts text.old (value_text x) text.new }
{
    put_float(text, x);
    text.put(b"  ");
    text.put(&hex(number::bits32(x)));
}

// The line of a number, with row k of the table.
#[tactic(auto, using(crate::proofs::Sizes::sizes), unfolding(crate::specs::Page::row_text))]
fn put_row(text: &mut Text, k: usize, x: f32)
    requires k_bound { k < 47 }
    requires at_in_bounds { HasRoom text.old 76 }
    ensures { Puts text.old (row_text (page_row k) x) text.new }
{
    text.put(&name(k));
    put_value(text, x);
    text.put(unit(k));
    text.put(b"\n");
}

// The lines of n numbers: the one at `from` + k has row `first` + k. A place and a count beside the
// slice, as the definition `rows_text` has them. A type for rows would save no clause: their
// numbers are sums, whose bound is proved at each call.
#[tactic(auto, using(crate::proofs::Sizes::sizes))]
fn put_rows(text: &mut Text, first: usize, xs: &[f32], from: usize, n: usize)
    requires n_bound { first + n ≤ 47 }
    requires n_in_bounds { from + n ≤ length xs.now }
    requires n_in_bounds_2 { HasRoom text.old (76 * n) }
    ensures { Puts text.old (rows_text first xs.now from n) text.new }
{
    for k in 0..n {
        put_row(text, first + k, xs[from + k]);
    }
}

#[tactic(auto, using(crate::proofs::Sizes::sizes), unfolding(crate::specs::Page::long_text))]
fn put_long(text: &mut Text, flag: u32)
    requires { HasRoom text.old 19 }
    ensures { Puts text.old (long_text (is_long flag)) text.new }
{
    text.put_if(flag != 0, b"the long way round\n");
}

// The 14 fields that a sheet is of, so that a page stands for itself.
#[tactic(auto, using(crate::proofs::Sizes::sizes), unfolding(crate::specs::Page::fields_text))]
fn put_fields(text: &mut Text, i: Inputs)
    requires { HasRoom text.old 964 }
    ensures { Puts text.old (fields_text i) text.new }
{
    let route = i.route;
    let psc = i.psc;
    let pole = i.pole;
    let early = [
        i.ssn,
        i.gmt,
        route.tlat.0,
        route.tlong.0,
        route.rlat.0,
        route.rlong.0,
    ];
    let late = [psc.e, psc.f1, psc.f2, psc.es, pole.lat.0, pole.lon.0];
    text.put(b"month       ");
    text.put_number(i.month as u64);
    text.put(b"\n");
    put_rows(text, 0, &early, 0, 6);
    put_long(text, route.long_path);
    put_rows(text, 6, &late, 0, 6);
}

// A point under a line with its number.
#[tactic(auto, using(crate::proofs::Sizes::sizes), unfolding(crate::specs::Page::point_text))]
fn put_point(text: &mut Text, figures: &[f32; FIGURES], p: u32)
    requires p_bound { p < 5 }
    requires at_in_bounds { HasRoom text.old 2231 }
    ensures { Puts text.old (point_text figures.now p) text.new }
{
    text.put(b"point ");
    text.put_number((p + 1) as u64);
    text.put(b"\n");
    put_rows(text, 18, figures, 6 + 29 * (p as usize), 29);
}

#[tactic(auto, using(crate::proofs::Sizes::sizes), unfolding(crate::specs::Page::there_text))]
fn put_point_there(text: &mut Text, count: u32, figures: &[f32; FIGURES], p: u32)
    requires p_bound { p < 5 }
    requires at_in_bounds { HasRoom text.old 2231 }
    ensures { Puts text.old (there_text count figures.now p) text.new }
{
    if p < count {
        put_point(text, figures, p);
    }
}

// Each point that is there.
#[tactic(auto, using(crate::proofs::Sizes::sizes))]
fn put_points(text: &mut Text, count: u32, figures: &[f32; FIGURES])
    requires { HasRoom text.old 11155 }
    ensures { Puts text.old (first_points count figures.now 5) text.new }
{
    for p in 0..5 {
        put_point_there(text, count, figures, p);
    }
}

// Puts the page: the fields, the six figures of the path and the points that are there.
#[tactic(auto, using(crate::proofs::Sizes::sizes), unfolding(crate::specs::Page::page_text))]
pub(crate) fn put_page(text: &mut Text, i: Inputs, count: u32, figures: &[f32; FIGURES])
    requires { HasRoom text.old 12800 }
    ensures { Puts text.old (page_text i count figures.now) text.new }
{
    put_fields(text, i);
    put_rows(text, 12, figures, 0, 6);
    put_points(text, count, figures);
}

// Writes the page and gives its length in bytes.
#[tactic(auto, using(crate::proofs::Sizes::sizes), unfolding(crate::specs::Page::page_text))]
pub fn page_text(i: Inputs, count: u32, figures: &[f32; FIGURES], out: &mut [u8; PAGE]) -> usize
    ensures text { take result out.new ≡ page_text i count figures.now }
    ensures count { IsPrefixLen result out.new }
{
    let mut text = Text::new(out);
    put_page(&mut text, i, count, figures);
    text.len()
}
