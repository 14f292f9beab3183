// The maps at a sunspot number, blended from their two planes.
ghost use Rattle.std.specs.Prelude.{◌≡◌, ℕ, ◌+◌, ◌*◌, ◌≤◌, length};
ghost use Rattle.base.specs.Fill.{fill};
ghost use Rattle.base.specs.Words.{FiniteRun};
ghost use Rattle.base.specs.Finite.{FiniteRecord, FiniteMonth};
ghost use Rattle.base.specs.MonthFile.{record_size, month_file_size};
ghost use Rattle.base.specs.Blend.{blend_of, blend_at, f2_weights, e_weights, height_weights, cofion_of, hmym_of, fakmap_of};

use crate::tables::{FAKMAP, XERCOF, XESLCF, XESMCF, XESUCF, XFM3CF, XPMAP};
use crate::words::{finite_word, read_floats};

// What the two planes of a map are weighed with, and the divisor.
#[derive(Clone, Copy)]
pub struct Weights {
    pub wa: f32,
    pub wb: f32,
    pub d: f32,
}

// The weights of the F2 and M3000 maps at a sunspot number s: 100 - s and s, with the divisor 100.
pub fn f2_weights(ssn: f32) -> Weights
    ensures { result ≡ f2_weights ssn }
{
    Weights {
        wa: 100.0 - ssn,
        wb: ssn,
        d: 100.0,
    }
}

// The weights of the Es and E maps at a sunspot number s: 150 - s and s - 10, with the divisor 140.
pub fn e_weights(ssn: f32) -> Weights
    ensures { result ≡ e_weights ssn }
{
    Weights {
        wa: 150.0 - ssn,
        wb: ssn - 10.0,
        d: 140.0,
    }
}

// The weights of the height map at a sunspot number s: 125 - s and s - 25, with the divisor 100.
pub fn height_weights(ssn: f32) -> Weights
    ensures { result ≡ height_weights ssn }
{
    Weights {
        wa: 125.0 - ssn,
        wb: ssn - 25.0,
        d: 100.0,
    }
}

fn blended(w: Weights, x0: f32, x1: f32) -> f32
    ensures { result ≡ blend_of w x0 x1 }
{
    (x0 * w.wa + x1 * w.wb) / w.d
}

// Two planes of `width` finite words each, one after the other from `at` on, blended into `out` from
// `base` on.
fn blend(s: &[u8], at: usize, width: usize, w: Weights, out: &mut [f32], base: usize)
    requires { (at ≤ 65536)
        × (width ≤ 65536)
        × (at + 8 * width ≤ length s.now)
        × (base + width ≤ length out.old)
        × FiniteRun s.now at (2 * width) }
    ensures { out.new ≡ fill (blend_at s.now at width w) base out.old width }
{
    for i in 0..width {
        let x0 = finite_word(s, at + 4 * i);
        let x1 = finite_word(s, at + 4 * (width + i));
        out[base + i] = blended(w, x0, x1);
    }
}

// How many coefficients each map has, as many as one of its planes has words.
const ESLCOF: usize = 275;

const ESMCOF: usize = 427;

const ESUCOF: usize = 275;

const F2COF: usize = 988;

const FM3COF: usize = 441;

const ERCOF: usize = 198;

// The numbers of a plane `P(29,16)`, 16 rows of 29: the height map and the land map are such
// planes.
pub const PLANE: usize = 464;

// Where each of the six maps starts among their coefficients.
const ESM_START: usize = ESLCOF;

const ESU_START: usize = ESM_START + ESMCOF;

const F2_START: usize = ESU_START + ESUCOF;

const FM3_START: usize = F2_START + F2COF;

const ER_START: usize = FM3_START + FM3COF;

// All of them.
pub const COFION: usize = ER_START + ERCOF;

// The coefficients of the six maps, one map after the other.
pub type SixMaps = [f32; COFION];

// The coefficients of the height map.
pub type HeightMap = [f32; PLANE];

// The words of the land map.
pub type LandMap = [f32; PLANE];

// The coefficients of the six maps at a sunspot number, from files that were checked.
pub(crate) fn cofion_of(f2: &[u8], month: &[u8], ssn: f32, out: &mut SixMaps)
    requires { (record_size ≤ length f2.now)
        × (month_file_size ≤ length month.now)
        × FiniteRecord f2.now
        × FiniteMonth month.now }
    ensures { out.new ≡ cofion_of f2.now month.now ssn }
{
    let wf = f2_weights(ssn);
    let we = e_weights(ssn);
    blend(month, XESLCF, ESLCOF, we, out, 0);
    blend(month, XESMCF, ESMCOF, we, out, ESM_START);
    blend(month, XESUCF, ESUCOF, we, out, ESU_START);
    blend(f2, 0, F2COF, wf, out, F2_START);
    blend(month, XFM3CF, FM3COF, wf, out, FM3_START);
    blend(month, XERCOF, ERCOF, we, out, ER_START);
}

// The coefficients of the height map at a sunspot number, from a file that was checked.
pub(crate) fn hmym_of(month: &[u8], ssn: f32, out: &mut HeightMap)
    requires { (month_file_size ≤ length month.now) × FiniteMonth month.now }
    ensures { out.new ≡ hmym_of month.now ssn }
{
    blend(month, XPMAP, PLANE, height_weights(ssn), out, 0);
}

// The words of the land map, of a file that was checked.
pub(crate) fn fakmap_of(month: &[u8], out: &mut LandMap)
    requires { (month_file_size ≤ length month.now) × FiniteMonth month.now }
    ensures { out.new ≡ fakmap_of month.now }
{
    read_floats(month, FAKMAP, out);
}
