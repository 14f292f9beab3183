// TIMVAR, EF1VAR and F2VAR: the layers at a control point. ESIND: sporadic E. And the ground. What
// `layer_parameters` of ionosphere.rs has in one body is a function here for each of its steps.
ghost use Rattle.std.specs.Prelude.{◌≡◌, T};
ghost use Rattle.std.specs.Float.Ieee.Scale.{finite};
ghost use Rattle.base.specs.Single.{◌⊕◌, ◌⊗◌};
ghost use Rattle.base.specs.Words.{float_at};
ghost use Rattle.base.specs.Finite.{FiniteMonth};
ghost use Rattle.maps.specs.Layers.{sun_of, monthly_of, clock_of, ssp_of, ssl_of, zenith_of, timvar_of, gamma6_of, e_layer, f1_layer, ef1_of, rat_of, abiy_of, retard_of, at_least_xf1, half_over, twilight_of, merged_of, e_retardation, below_f2, retarded_of, layers_of, esind_of, ground_at, ground_of};

use crate::geometry::ControlPoint;
use crate::inputs::Factors;
use crate::ionosphere::noisy::noisy;
use crate::ionosphere::versy::Gammas;
use crate::magnetic::MagneticVars;
use base::angle::{Degrees, Radians};
use base::blend::{HeightMap, LandMap};
use base::elementary::{acos32, cos32, exp32, ln32, sin32};
use base::number::{abs32, max, min, sqrt32};
use base::tables::{ABMAP, ACHI, ANEW, BCHI, BNEW};
use base::words::table_word;

// The sun's two latitudes in each month, `SUN(2,12)`.
const SUN: [[f32; 2]; 12] = [
    [-23.05, -17.31],
    [-17.30, -7.89],
    [-7.88, 4.21],
    [4.26, 14.83],
    [14.84, 21.93],
    [21.93, 23.45],
    [23.15, 18.23],
    [18.20, 8.68],
    [8.55, -2.86],
    [-2.90, -14.16],
    [-14.20, -21.68],
    [-21.66, -23.45],
];

// A layer's height over its semithickness: E, F1.
const BETAE: f32 = 5.5;

const BETAF1: f32 = 4.0;

// A smaller ratio of frequencies counts as this one.
const XF1: f32 = 1.1;

// The width of twilight, degrees.
const DELZ: f32 = 2.0;

// The two latitudes of the subsolar point in a month.
#[derive(Clone, Copy)]
pub struct Sun(pub Degrees, pub Degrees);

// What a month's file gives at a sunspot number, beside the maps.
#[derive(Clone, Copy)]
pub struct Monthly {
    pub sun: Sun,
    // zenmax: chi0 + chi1 * cos(dip)
    pub chi0: f32,
    pub chi1: f32,
    // foF1: new0 + new1 * cos(zenith) + new2 * cos(zenith) * cos(zenith)
    pub new0: f32,
    pub new1: f32,
    pub new2: f32,
    // `ABMAP`, columns 1 and 2: they normalise the land map and the ratio map.
    pub land_alf: f32,
    pub land_bet: f32,
    pub ratio_alf: f32,
    pub ratio_bet: f32,
}

// What TIMVAR has before EF1VAR: the local mean time and the sun's zenith angle.
#[derive(Clone, Copy)]
pub struct Timvar {
    pub clock: f32,
    pub cycen: f32,
}

// A layer: its critical frequency, semithickness and height.
#[derive(Clone, Copy)]
pub struct Layer {
    pub fi: f32,
    pub yi: f32,
    pub hi: f32,
}

// What EF1VAR leaves.
#[derive(Clone, Copy)]
pub struct Ef1 {
    pub e: Layer,
    pub f1: Layer,
    pub zenang: Degrees,
    pub zenmax: Degrees,
}

// F1 where it may merge into F2: what it adds to the retardation, its height and semithickness.
#[derive(Clone, Copy)]
pub struct Merged {
    pub rft: f32,
    pub hi: f32,
    pub yi: f32,
}

// The ionosphere at one control point for one hour: of E, F1 and F2 the critical frequencies in
// MHz, semithicknesses and heights of maximum in km. Arrays, and not three of `Layer`: the
// definition `layers_of` and the C interface have them so.
#[derive(Clone, Copy)]
pub struct LayerParams {
    pub fi: [f32; 3],
    pub yi: [f32; 3],
    pub hi: [f32; 3],
    // The M(3000)F2 factor.
    pub f2m3: f32,
    // The virtual height of F2 at 0.834 of its critical frequency, km.
    pub hpf2: f32,
    // F2's height of maximum over its semithickness.
    pub rat: f32,
    // Absorption index.
    pub abiy: f32,
    // Local mean time, hours.
    pub clck: f32,
    // The sun's zenith angle, and the greatest one at which there is an F1 layer.
    pub zenang: Degrees,
    pub zenmax: Degrees,
}

// Sporadic E: lower decile, median and upper decile of the critical frequency, MHz; height, km.
#[derive(Clone, Copy)]
pub struct EsParams {
    pub fs: [f32; 3],
    pub hs: f32,
}

// What the ground is: conductivity in mhos/m, and permittivity against that of empty space.
#[derive(Clone, Copy)]
pub struct Ground(pub f32, pub f32);

// The month's sun. A month that is none has no sun: both latitudes are no number.
fn sun_of(month: u32) -> Sun
    ensures { result ≡ sun_of month }
{
    if month < 1 || month > 12 {
        return Sun(Degrees(0.0 / 0.0), Degrees(0.0 / 0.0));
    }
    let [first, last] = SUN[month as usize - 1];
    Sun(Degrees(first), Degrees(last))
}

// A number of a month file whose words were found finite.
fn number_at(file: &[u8], at: usize) -> f32
    requires { T (finite (float_at file.now at)) }
    ensures { result ≡ float_at file.now at }
{
    table_word(file, at).unwrap()
}

// A month file's number at `a` and, by the sunspot number, its number at `b`.
fn term(file: &[u8], a: usize, b: usize, ssn: f32) -> f32
    requires { T (finite (float_at file.now a)) × T (finite (float_at file.now b)) }
    ensures { result ≡ float_at file.now a ⊕ float_at file.now b ⊗ ssn }
{
    number_at(file, a) + number_at(file, b) * ssn
}

// What `layer_parameters` and `ground_constants` take of a month file, whose words were found
// finite, at a sunspot number, with the month's row of the sun's table.
pub(crate) fn monthly_of(file: &[u8], month: u32, ssn: f32) -> Monthly
    requires { FiniteMonth file.now }
    ensures { result ≡ monthly_of file.now month ssn }
{
    Monthly {
        sun: sun_of(month),
        chi0: term(file, ACHI, BCHI, ssn),
        chi1: term(file, ACHI + 4, BCHI + 4, ssn),
        new0: term(file, ANEW, BNEW, ssn),
        new1: term(file, ANEW + 4, BNEW + 4, ssn),
        new2: term(file, ANEW + 8, BNEW + 8, ssn),
        land_alf: number_at(file, ABMAP),
        land_bet: number_at(file, ABMAP + 4),
        ratio_alf: number_at(file, ABMAP + 8),
        ratio_bet: number_at(file, ABMAP + 12),
    }
}

// TIMVAR's local clock, in hours, of a universal hour and a longitude. It is corrected once: 24
// stays, 0 becomes 24.
pub fn timvar_clck(gmt: f32, lon: Radians) -> f32
    ensures { result ≡ clock_of gmt lon }
{
    let clock = gmt + lon.0 / 0.261799387;
    if 24.0 - clock < 0.0 {
        clock - 24.0
    } else if clock <= 0.0 {
        clock + 24.0
    } else {
        clock
    }
}

// The subsolar point's latitude: of the month's two the one that is farther away.
fn ssp_of(sun: Sun, cenlat: Radians) -> f32
    ensures { result ≡ ssp_of sun cenlat }
{
    let s0 = sun.0.to_radians();
    let s1 = sun.1.to_radians();
    let cendog = abs32(cenlat.0 - s0.0);
    let cencat = abs32(cenlat.0 - s1.0);
    if cendog - cencat > 0.0 { s0.0 } else { s1.0 }
}

// Where the sun is due south or north.
fn ssl_of(gmt: f32) -> Radians
    ensures { result ≡ ssl_of gmt }
{
    Degrees(180.0 - 15.0 * gmt).to_radians()
}

// The sun's zenith angle.
fn zenith(cenlat: Radians, cenlg: Radians, ssp: f32, ssl: Radians) -> f32
    ensures { result ≡ zenith_of cenlat cenlg ssp ssl }
{
    let z = cenlg.0 - ssl.0;
    acos32(sin32(cenlat.0) * sin32(ssp) + cos32(cenlat.0) * cos32(ssp) * cos32(z))
}

// TIMVAR as far as EF1VAR: the local mean time and the sun's zenith angle.
fn timvar_of(sun: Sun, gmt: f32, cenlat: Radians, cenlg: Radians) -> Timvar
    ensures { result ≡ timvar_of sun gmt cenlat cenlg }
{
    let ssp = ssp_of(sun, cenlat);
    let clock = timvar_clck(gmt, cenlg);
    let cycen = zenith(cenlat, cenlg, ssp, ssl_of(gmt));
    Timvar { clock, cycen }
}

// The map's value, or where that is bad the midnight one.
fn gamma6_of(gamma6: f32, ssn: f32) -> f32
    ensures { result ≡ gamma6_of gamma6 ssn }
{
    if gamma6 - 0.36 < 0.0 {
        0.36 * sqrt32(1.0 + 0.0098 * ssn)
    } else {
        gamma6
    }
}

// The E layer, whose height is fixed.
fn e_layer(gamma6: f32, ssn: f32, psc0: f32) -> Layer
    ensures { result ≡ e_layer gamma6 ssn psc0 }
{
    let hi = 110.0;
    Layer {
        fi: gamma6_of(gamma6, ssn) * psc0,
        yi: hi / BETAE,
        hi,
    }
}

// There is an F1 layer where the zenith angle is at most `zenmax`; elsewhere it is all zero.
fn f1_layer(m: Monthly, psc1: f32, zdeg: f32, zenmax: f32, cosz: f32) -> Layer
    ensures { result ≡ f1_layer m psc1 zdeg zenmax cosz }
{
    if zdeg <= zenmax {
        let f1 = m.new0 + m.new1 * cosz + m.new2 * cosz * cosz;
        let hi = 165.0 + 0.6428 * zdeg;
        Layer {
            fi: f1 * psc1,
            yi: hi / BETAF1,
            hi,
        }
    } else {
        Layer {
            fi: 0.0,
            yi: 0.0,
            hi: 0.0,
        }
    }
}

// EF1VAR: the E and F1 layers, from the size of the zenith angle.
fn ef1_of(m: Monthly, ssn: f32, psc: Factors, gmdip: Radians, cycen: f32, gamma6: f32) -> Ef1
    ensures { result ≡ ef1_of m ssn psc gmdip cycen gamma6 }
{
    let cycen = abs32(cycen);
    let zdeg = Radians(cycen).to_degrees();
    let cosz = cos32(cycen);
    let cosdi = cos32(gmdip.0);
    let zenmax = m.chi0 + m.chi1 * cosdi;
    Ef1 {
        e: e_layer(gamma6, ssn, psc.e),
        f1: f1_layer(m, psc.f1, zdeg.0, zenmax, cosz),
        zenang: zdeg,
        zenmax: Degrees(zenmax),
    }
}

// TIMVAR continued: the F2 height of maximum over its semithickness, from its map, but at least 2.
// The map's second coordinate is the zenith angle, which counts as negative before noon.
fn rat_of(m: Monthly, hmym: &HeightMap, gmlat: Radians, zdeg: Degrees, clock: f32) -> f32
    ensures { result ≡ rat_of m hmym.now gmlat zdeg clock }
{
    let gm = Radians(abs32(gmlat.0)).to_degrees().0 - 45.0;
    let zn = if clock - 12.0 < 0.0 { -zdeg.0 } else { zdeg.0 };
    let rat = noisy(hmym, m.ratio_alf, m.ratio_bet, true, gm, zn + 180.0);
    if rat - 2.0 < 0.0 { 2.0 } else { rat }
}

// The absorption index.
fn abiy_of(fi0: f32) -> f32
    ensures { result ≡ abiy_of fi0 }
{
    -0.04 + exp32(-2.937 + 0.8445 * fi0)
}

// The retardation at the frequency ratio f.
fn retard(f: f32) -> f32
    ensures { result ≡ retard_of f }
{
    f * ln32((f + 1.0) / (f - 1.0))
}

// `fcec` or `ffec`: the ratio of `fc` to a layer's critical frequency.
fn at_least_xf1(fc: f32, f: f32) -> f32
    ensures { result ≡ at_least_xf1 fc f }
{
    max(fc / f, XF1)
}

// The F1 layer's retardation, from its semithickness and that of its frequency ratio.
fn half_over(y: f32, rf: f32) -> f32
    ensures { result ≡ half_over y rf }
{
    0.5 * y * (rf - 2.0)
}

// Over the last two degrees before zenmax F1 rises into F2 and its retardation goes to zero. `hm`
// is the height F2 would have alone, and `f1.fi` is what the Rust has as `fc1`.
fn twilight(f1: Layer, ffec: f32, zmax: f32, z: f32, hm: f32, rat: f32, fc: f32, fi2: f32) -> Merged
    ensures { result ≡ twilight_of f1 ffec zmax z hm rat fc fi2 }
{
    // The numbers are handed on one by one, here and below: the definitions `twilight_of`,
    // `merged_of` and `retarded_of` take them so.
    let zn = zmax - DELZ;
    let hn = 165.0 + 0.6428 * zn;
    let yn = hn * (f1.yi / f1.hi);
    let rfn = half_over(yn, retard(ffec));
    let sz = (z - zn) / DELZ;
    let rft = rfn * (1.0 - sz);
    let ym = hm / rat;
    let dhn = (hm - ym) - (hn - yn);
    if dhn > 0.0 {
        // F1 starts below F2: its lower edge is lifted by what is left of the gap.
        let dh = dhn * (1.0 - sz);
        if f1.fi - fc > 0.0 {
            // Near F2 in frequency as well, it takes on F2's semithickness.
            let y1max = yn + (ym - yn) * (f1.fi / fi2 - 0.834) / 0.166;
            let yi = yn + (y1max - yn) * sz;
            Merged {
                rft,
                hi: (hm - ym) - dh + yi,
                yi,
            }
        } else {
            Merged {
                rft,
                hi: (hm - ym) - dh + f1.yi,
                yi: f1.yi,
            }
        }
    } else {
        Merged {
            rft,
            hi: f1.hi,
            yi: f1.yi,
        }
    }
}

// What an F1 layer adds to the retardation, and what becomes of it.
fn merged_of(f1: Layer, zmax: f32, z: f32, hm: f32, rat: f32, fc: f32, fi2: f32) -> Merged
    ensures { result ≡ merged_of f1 zmax z hm rat fc fi2 }
{
    let ffec = at_least_xf1(fc, f1.fi);
    if zmax - DELZ - z >= 0.0 {
        // More than two degrees before zenmax nothing is merged.
        Merged {
            rft: half_over(f1.yi, retard(ffec)),
            hi: f1.hi,
            yi: f1.yi,
        }
    } else {
        twilight(f1, ffec, zmax, z, hm, rat, fc, fi2)
    }
}

// What the E layer adds to the virtual height.
fn e_retardation(e: Layer, fc: f32) -> f32
    ensures { result ≡ e_retardation e fc }
{
    let fcec = at_least_xf1(fc, e.fi);
    (retard(fcec) - 2.0) * e.yi
}

// F1 with its frequency kept under that of F2.
fn below_f2(f1: Layer, fi2: f32) -> Layer
    ensures { result ≡ below_f2 f1 fi2 }
{
    Layer {
        fi: min(f1.fi, fi2 - 0.2),
        yi: f1.yi,
        hi: f1.hi,
    }
}

// The retardation of F2 and what becomes of F1, from `ret`, that of the E layer.
fn retarded(
    f1: Layer,
    ret: f32,
    zmax: f32,
    z: f32,
    hpf2: f32,
    rat: f32,
    fc: f32,
    fi2: f32,
) -> Merged
    ensures { result ≡ retarded_of f1 ret zmax z hpf2 rat fc fi2 }
{
    if f1.fi > 0.0 {
        let m = merged_of(f1, zmax, z, hpf2 - ret, rat, fc, fi2);
        Merged {
            rft: ret + m.rft,
            hi: m.hi,
            yi: m.yi,
        }
    } else {
        Merged {
            rft: ret,
            hi: f1.hi,
            yi: f1.yi,
        }
    }
}

// The parameters of the layers E, F1 and F2 at one control point: TIMVAR with EF1VAR, then F2VAR.
pub fn layer_parameters(
    m: Monthly,
    ssn: f32,
    gmt: f32,
    psc: Factors,
    hmym: &HeightMap,
    pt: ControlPoint,
    mag: MagneticVars,
    g: Gammas,
) -> LayerParams
    ensures { result ≡ layers_of m ssn gmt psc hmym.now pt mag g }
{
    let t = timvar_of(m.sun, gmt, pt.lat, pt.lon);
    let v = ef1_of(m, ssn, psc, mag.gmdip, t.cycen, g.g6);
    let e = v.e;
    let zenang = v.zenang;
    let zenmax = v.zenmax;
    let rat = rat_of(m, hmym, pt.gmlat, zenang, t.clock);
    let abiy = abiy_of(e.fi);
    let hpf2 = 1490.0 / g.g5 - 176.0;
    let fi2 = (g.g4 + 0.5 * mag.gyz) * psc.f2;
    let f1 = below_f2(v.f1, fi2);
    let fc = 0.834 * fi2;
    let ret = e_retardation(e, fc);
    let w = retarded(f1, ret, zenmax.0, zenang.0, hpf2, rat, fc, fi2);
    let hi2 = hpf2 - w.rft;
    LayerParams {
        fi: [e.fi, f1.fi, fi2],
        yi: [e.yi, w.yi, hi2 / rat],
        hi: [e.hi, w.hi, hi2],
        f2m3: g.g5,
        hpf2,
        rat,
        abiy,
        clck: t.clock,
        zenang,
        zenmax,
    }
}

// Sporadic E: the frequencies of maps 3, 2 and 1, in this order, times the factor, and the height,
// 110 km.
pub fn esind(g: Gammas, psc3: f32) -> EsParams
    ensures { result ≡ esind_of g psc3 }
{
    EsParams {
        fs: [g.g3 * psc3, g.g2 * psc3, g.g1 * psc3],
        hs: 110.0,
    }
}

// Land, or where the map is below 0 or no number, sea.
fn ground_at(wld: f32) -> Ground
    ensures { result ≡ ground_at wld }
{
    if wld >= 0.0 {
        Ground(0.001, 4.0)
    } else {
        Ground(5.0, 80.0)
    }
}

// The ground's conductivity and permittivity at a place, from the land-mass map; the longitude is
// the one that `magvar` gives.
pub fn ground_constants(m: Monthly, fakmap: &LandMap, lat: Radians, east_lon: Radians) -> Ground
    ensures { result ≡ ground_of m fakmap.now lat east_lon }
{
    let rfltd = lat.to_degrees();
    let mut clgd = east_lon.to_degrees().0;
    if clgd < 0.0 {
        clgd = clgd + 360.0;
    }
    ground_at(noisy(fakmap, m.land_alf, m.land_bet, false, rfltd.0, clgd))
}
