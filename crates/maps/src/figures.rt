// The 151 figures of a sheet.
ghost use Rattle.std.specs.Prelude.{◌≡◌, ℕ, ◌+◌, ◌*◌, ◌<◌, ◌≤◌, length, slice_index_or};
ghost use Rattle.std.specs.Float.{nan};
ghost use Rattle.base.specs.Fill.{fill};
ghost use Rattle.base.specs.Finite.{FiniteMonth};
ghost use Rattle.maps.specs.Figures.{hour_from, shared, head_of, numbers_of, figure_row, figures_to, sheet_path, shown_of, figures_buffer};

use crate::geometry::{ControlPoint, POINTS, PathGeometry};
use crate::inputs::Inputs;
use crate::ionosphere::index::CheckedIndex;
use crate::ionosphere::layers::{EsParams, Ground, LayerParams, Monthly};
use crate::ionosphere::versy::HourMaps;
use crate::ionosphere::{layers, virtim};
use crate::magnetic::MagneticVars;
use crate::{geometry, ionosphere, magnetic};
use base::blend::{COFION, HeightMap, LandMap, PLANE, SixMaps};
use base::files::redmap;
use base::index::INDEX;
use base::refusal::Refusal;

// The figures of a path.
const HEAD: usize = 6;

// The figures of a point.
const ROW: usize = 29;

// How many figures a sheet has, those of its path before a row for each of five points.
pub const FIGURES: usize = HEAD + POINTS * ROW;

// The figures of the path.
fn head(g: PathGeometry) -> [f32; HEAD]
    ensures { result ≡ head_of g }
{
    [
        g.gcd.0,
        g.gcd_km,
        g.btr.0,
        g.brt.0,
        g.rlatd.0,
        geometry::alatd(g).0,
    ]
}

// The numbers of a point, in their order.
#[tactic(auto, unfolding(crate::specs::Figures::numbers_of))]
fn numbers(
    pt: ControlPoint,
    mag: MagneticVars,
    l: LayerParams,
    es: EsParams,
    ground: Ground,
) -> [f32; ROW]
    ensures { result ≡ numbers_of pt mag l es ground }
{
    let [e, f1, f2] = l.fi;
    let [ye, yf1, yf2] = l.yi;
    let [he, hf1, hf2] = l.hi;
    let [lower, median, upper] = es.fs;
    [
        pt.rd.0,
        pt.lat.0,
        pt.lon.0,
        pt.gmlat.0,
        mag.gyz,
        mag.gmdip.0,
        mag.east_lon.0,
        e,
        f1,
        f2,
        ye,
        yf1,
        yf2,
        he,
        hf1,
        hf2,
        l.f2m3,
        l.hpf2,
        l.rat,
        l.abiy,
        l.clck,
        l.zenang.0,
        l.zenmax.0,
        lower,
        median,
        upper,
        es.hs,
        ground.0,
        ground.1,
    ]
}

// What the points of a sheet share.
#[derive(Clone, Copy)]
struct Hour<'a> {
    maps: HourMaps<'a>,
    monthly: Monthly,
    hmym: &'a HeightMap,
    fakmap: &'a LandMap,
}

impl<'a> Hour<'a> {
    // The row p: a point's 29 numbers, or zeros where there is no such point.
    fn row(&self, i: Inputs, g: PathGeometry, p: usize) -> [f32; ROW]
        requires { p < 5 }
        ensures { result ≡ figure_row (shared self.now) i g p }
    {
        if g.count <= p as u32 {
            return [0.0f32; ROW];
        }
        let pt = g.points[p];
        let m = self.monthly;
        let mag = magnetic::magvar(pt.lat, pt.lon);
        let gammas = ionosphere::gammas_at(self.maps, pt.lat, pt.lon, mag);
        let l = layers::layer_parameters(m, i.ssn, i.gmt, i.psc, self.hmym, pt, mag, gammas);
        let es = layers::esind(gammas, i.psc.es);
        let ground = layers::ground_constants(m, self.fakmap, pt.lat, mag.east_lon);
        numbers(pt, mag, l, es, ground)
    }

    // The six figures of the path, and after them the rows of the five points.
    fn put_figures(&self, i: Inputs, g: PathGeometry, out: &mut [f32])
        requires { length out.old ≡ 151 }
        ensures { out.new ≡ figures_to (shared self.now) i g 5 }
    {
        out[..HEAD].copy_from_slice(&head(g));
        for p in 0..POINTS {
            let at = HEAD + ROW * p;
            out[at..at + ROW].copy_from_slice(&self.row(i, g, p));
        }
    }
}

// The path of a sheet.
#[tactic(auto, unfolding(crate::specs::Figures::sheet_path))]
fn path(i: Inputs) -> PathGeometry
    ensures { result ≡ sheet_path i }
{
    let route = i.route;
    geometry::path_geometry(
        route.tlat,
        route.tlong,
        route.rlat,
        route.rlong,
        route.long_path != 0,
        i.pole,
    )
}

// Every figure of a sheet, from the tables of good files; the number of points.
fn fill_in<'a>(
    i: Inputs,
    file: &[u8],
    index: CheckedIndex<'a>,
    cofion: &SixMaps,
    hmym: &'a HeightMap,
    fakmap: &'a LandMap,
    out: &mut [f32],
) -> u32
    requires { FiniteMonth file.now × (length out.old ≡ 151) }
    ensures answer { result ≡ (sheet_path i).count }
    ensures buffer { let m = file.now in
        let h = hour_from m index.entry.words.now cofion.now hmym.now fakmap.now i in
        out.new ≡ figures_to h i (sheet_path i) 5 }
{
    let ab = virtim::virtim(cofion, index, i.gmt);
    let hour = Hour {
        maps: HourMaps::new(&ab, index),
        monthly: layers::monthly_of(file, i.month, i.ssn),
        hmym,
        fakmap,
    };
    let g = path(i);
    hour.put_figures(i, g, out);
    g.count
}

// The number of points of a sheet, with its 151 figures in the lent buffer; no field is judged.
// Where the files are refused (8, 9, 10, 23, 11) the buffer stays as it is.
pub fn figures(i: Inputs, f2: &[u8], file: &[u8], out: &mut [f32; FIGURES]) -> Result<u32, Refusal>
    ensures answer { result ≡ shown_of f2.now file.now i }
    ensures buffer { out.new ≡ figures_buffer f2.now file.now i out.old }
{
    let mut index = [0u32; INDEX];
    let mut cofion = [0.0f32; COFION];
    let mut hmym = [0.0f32; PLANE];
    let mut fakmap = [0.0f32; PLANE];
    redmap(
        f2,
        file,
        i.ssn,
        &mut index,
        &mut cofion,
        &mut hmym,
        &mut fakmap,
    )?;
    let index = CheckedIndex { words: &index };
    Ok(fill_in(i, file, index, &cofion, &hmym, &fakmap, out))
}
