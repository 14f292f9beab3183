// What the maps give at a point, after ionosphere.rs: a module for each group of the Fortran
// routines that it has in one file, and here what works over lent files.
pub mod clocks;
pub(crate) mod index;
pub mod layers;
pub mod noisy;
pub mod starts;
pub mod versy;
pub mod virtim;

ghost use Rattle.std.specs.Prelude.{◌≡◌};
ghost use Rattle.base.specs.Refusal.{written_over};
ghost use Rattle.base.specs.Index.{index_of};
ghost use Rattle.base.specs.Blend.{hmym_of};
ghost use Rattle.base.specs.Files.{file_check, files_check};
ghost use Rattle.maps.specs.Ionosphere.{hour_maps_of, gammas_at, point_at, layers_check, layers_there, no_layers, layers_at_of};

use crate::geometry::ControlPoint;
use crate::inputs::{Factors, MagneticPole};
use crate::magnetic::MagneticVars;
use crate::{geometry, magnetic};
use base::angle::{Degrees, Radians};
use base::blend::{COFION, HeightMap, PLANE};
use base::elementary::cos32;
use base::files;
use base::index::{INDEX, IndexTable};
use base::ranges::month_check;
use base::refusal::Verdict;
use index::CheckedIndex;
use layers::{LayerParams, Monthly};
use versy::{Gammas, HourMaps};
use virtim::TimeMaps;

// The coefficients of the six maps at a sunspot number and an hour into the lent array, and the
// verdict on the files (8, 9, 10, 23, 11). Refused, the array stays as it is.
pub fn hour_maps(f2: &[u8], file: &[u8], ssn: f32, gmt: f32, ab: &mut TimeMaps) -> Verdict
    ensures answer { result ≡ files_check f2.now file.now }
    ensures buffer { let f = f2.now in
        let m = file.now in
        ab.new ≡ written_over (files_check f m) (hour_maps_of f m ssn gmt) ab.old }
{
    let mut index = [0u32; INDEX];
    let mut cof = [0.0f32; COFION];
    files::cofion(f2, file, ssn, &mut cof)?;
    files::index(file, &mut index)?;
    *ab = virtim::virtim(&cof, CheckedIndex { words: &index }, gmt);
    Ok(())
}

// The six maps at a place.
pub(crate) fn gammas_at(maps: HourMaps, lat: Radians, lon: Radians, mag: MagneticVars) -> Gammas
    ensures { let m = maps.entry in
        result ≡ gammas_at m.ab.now m.index.words.now lat lon mag }
{
    let clg = magnetic::east(lon);
    maps.versy(mag.gmdip.0, lat.0, clg.0, cos32(lat.0))
}

// What the layers take besides the place.
#[derive(Clone, Copy)]
pub struct LayerInputs {
    pub month: u32,
    pub ssn: f32,
    pub gmt: f32,
    pub psc: Factors,
}

// The layers at a place; refused, they are +0.0 in every field.
#[derive(Clone, Copy)]
pub struct LayersAt {
    pub verdict: Verdict,
    pub params: LayerParams,
}

// The control point that a place is. Nothing reads its distance.
fn point_at(pole: MagneticPole, lat: Radians, lon: Radians) -> ControlPoint
    ensures { result ≡ point_at pole lat lon }
{
    ControlPoint {
        rd: Radians(0.0),
        lat,
        lon,
        gmlat: geometry::geomagnetic_latitude(pole, lat, lon),
    }
}

// The tables that the layers take, from a good month file: the height map, for which all of it is
// checked, and then the index table.
fn month_tables(ssn: f32, file: &[u8], index: &mut IndexTable, hmym: &mut HeightMap) -> Verdict
    ensures answer { result ≡ file_check file.now }
    ensures index { let m = file.now in
        index.new ≡ written_over (file_check m) (index_of m) index.old }
    ensures hmym { let m = file.now in
        hmym.new ≡ written_over (file_check m) (hmym_of m ssn) hmym.old }
{
    files::hmym(file, ssn, hmym)?;
    files::index(file, index)
}

// The same in a month that there is.
#[tactic(auto, unfolding(crate::specs::Ionosphere::layers_check))]
fn layer_tables(
    month: u32,
    ssn: f32,
    file: &[u8],
    index: &mut IndexTable,
    hmym: &mut HeightMap,
) -> Verdict
    ensures answer { result ≡ layers_check month file.now }
    ensures index { let m = file.now in
        index.new ≡ written_over (layers_check month m) (index_of m) index.old }
    ensures hmym { let m = file.now in
        hmym.new ≡ written_over (layers_check month m) (hmym_of m ssn) hmym.old }
{
    month_check(month)?;
    month_tables(ssn, file, index, hmym)
}

fn layers_there(
    inputs: LayerInputs,
    m: Monthly,
    maps: HourMaps,
    hmym: &HeightMap,
    pole: MagneticPole,
    lat: Radians,
    lon: Radians,
) -> LayerParams
    ensures { let t = maps.entry in
        result ≡ layers_there inputs m t.ab.now t.index.words.now hmym.now pole lat lon }
{
    let mag = magnetic::magvar(lat, lon);
    let g = gammas_at(maps, lat, lon, mag);
    let pt = point_at(pole, lat, lon);
    layers::layer_parameters(m, inputs.ssn, inputs.gmt, inputs.psc, hmym, pt, mag, g)
}

fn no_layers() -> LayerParams
    ensures { result ≡ no_layers }
{
    LayerParams {
        fi: [0.0; 3],
        yi: [0.0; 3],
        hi: [0.0; 3],
        f2m3: 0.0,
        hpf2: 0.0,
        rat: 0.0,
        abiy: 0.0,
        clck: 0.0,
        zenang: Degrees(0.0),
        zenmax: Degrees(0.0),
    }
}

// The layer parameters at one place, as at a control point, from the maps at the hour and a month
// file. Refused, by 1 and then 9, 10, 23, 11, every parameter is +0.0.
pub fn layer_parameters_at(
    inputs: LayerInputs,
    ab: &TimeMaps,
    file: &[u8],
    pole: MagneticPole,
    lat: Radians,
    lon: Radians,
) -> LayersAt
    ensures { result ≡ layers_at_of inputs ab.now file.now pole lat lon }
{
    let mut index = [0u32; INDEX];
    let mut hmym = [0.0f32; PLANE];
    match layer_tables(inputs.month, inputs.ssn, file, &mut index, &mut hmym) {
        Ok(()) => {
            let m = layers::monthly_of(file, inputs.month, inputs.ssn);
            let index = CheckedIndex { words: &index };
            let maps = HourMaps::new(ab, index);
            LayersAt {
                verdict: Ok(()),
                params: layers_there(inputs, m, maps, &hmym, pole, lat, lon),
            }
        }
        Err(why) => LayersAt {
            verdict: Err(why),
            params: no_layers(),
        },
    }
}
