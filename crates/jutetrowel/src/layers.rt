// The parts of `maps` by themselves: a path, the six maps at an hour, the layers at a place. Of the
// fields only the layers' month is judged: a whole sheet judges all, these take them as they are.
ghost use Rattle.std.specs.Prelude.{◌≡◌};
ghost use Rattle.base.specs.Refusal.{written_over};
ghost use Rattle.base.specs.Files.{files_check};
ghost use Rattle.maps.specs.Inputs.{is_long};
ghost use Rattle.maps.specs.Geometry.{path_of};
ghost use Rattle.maps.specs.Ionosphere.{hour_maps_of, layers_at_of};
ghost use Rattle.jutetrowel.specs.Answers.{answer_of};
ghost use Rattle.jutetrowel.specs.Fields.{degrees, radians, pole_typed};
ghost use Rattle.jutetrowel.specs.Layers.{layer_inputs, measured_of, layers_as};

use crate::answers::Answer;
use crate::fields::{factors, pole};
use base::angle::{Degrees, Radians};
use base::refusal::Report;
use maps::geometry::PathGeometry;
use maps::ionosphere::virtim::TimeMaps;
use maps::ionosphere::{LayerInputs, LayersAt};
use maps::{geometry, ionosphere};

// The lengths and bearings of a path, radians but for the names that say otherwise, and its points.
#[repr(C)]
#[derive(Clone, Copy)]
pub struct Measured {
    pub gcd: f32,
    pub gcd_km: f32,
    pub btr: f32,
    pub brt: f32,
    pub rlatd: f32,
    pub alatd: f32,
    pub btr_deg: f32,
    pub brt_deg: f32,
    pub points: u32,
}

// The layers at a place, or a refusal beside zeros.
#[repr(C)]
#[derive(Clone, Copy)]
pub struct Layers {
    pub number: u32,
    pub place: u32,
    pub fi: [f32; 3],
    pub yi: [f32; 3],
    pub hi: [f32; 3],
    pub f2m3: f32,
    pub hpf2: f32,
    pub rat: f32,
    pub abiy: f32,
    pub clck: f32,
    pub zenang: f32,
    pub zenmax: f32,
}

// A path's figures as C has them.
impl From<PathGeometry> for Measured {
    #[tactic(auto, unfolding(crate::specs::Layers::measured_of))]
    fn from(g: PathGeometry) -> Measured
        ensures { result ≡ measured_of g }
    {
        Measured {
            gcd: g.gcd.0,
            gcd_km: g.gcd_km,
            btr: g.btr.0,
            brt: g.brt.0,
            rlatd: g.rlatd.0,
            alatd: geometry::alatd(g).0,
            btr_deg: geometry::btr_deg(g).0,
            brt_deg: geometry::brt_deg(g).0,
            points: g.count,
        }
    }
}

// The path between two ends in degrees, its six figures, both bearings in degrees and its number of
// points; a flag that is not 0 is the long way round. Nothing is refused.
pub fn jt_path(
    tlat: f32,
    tlong: f32,
    rlat: f32,
    rlong: f32,
    long_path: u32,
    pole_lat: f32,
    pole_lon: f32,
) -> Measured
    ensures { let long = is_long long_path in
        let pole = pole_typed pole_lat pole_lon in
        result ≡ measured_of (path_of (degrees tlat) (degrees tlong) (degrees rlat) (degrees rlong) long pole) }
{
    Measured::from(geometry::path_geometry(
        Degrees(tlat),
        Degrees(tlong),
        Degrees(rlat),
        Degrees(rlong),
        long_path != 0,
        pole(pole_lat, pole_lon),
    ))
}

// The coefficients of the six maps at a sunspot number and an hour. Refuses 8, 9, 10, 23, 11; the
// array stays as it is.
pub fn jt_hour_maps(f2: &[u8], file: &[u8], ssn: f32, gmt: f32, ab: &mut TimeMaps) -> Answer
    ensures answer { result ≡ answer_of (files_check f2.now file.now) }
    ensures buffer { let f = f2.now in
        let m = file.now in
        ab.new ≡ written_over (files_check f m) (hour_maps_of f m ssn gmt) ab.old }
{
    Answer::from(ionosphere::hour_maps(f2, file, ssn, gmt, ab))
}

// The layers as C has them, beside the verdict's number and place.
impl From<LayersAt> for Layers {
    #[tactic(auto, unfolding(crate::specs::Layers::layers_as))]
    fn from(l: LayersAt) -> Layers
        ensures { result ≡ layers_as l }
    {
        let Report(number, place) = Report::from(l.verdict);
        let p = l.params;
        // Each array goes through a name. Tried without, and by a pattern: the borrow checker has no
        // proof yet of an array's field that goes into a literal.
        let fi = p.fi;
        let yi = p.yi;
        let hi = p.hi;
        Layers {
            number,
            place,
            fi,
            yi,
            hi,
            f2m3: p.f2m3,
            hpf2: p.hpf2,
            rat: p.rat,
            abiy: p.abiy,
            clck: p.clck,
            zenang: p.zenang.0,
            zenmax: p.zenmax.0,
        }
    }
}

// The layers at a place in radians, from the maps at the hour and a month file. Refuses 1, then 9,
// 10, 23, 11, with +0.0 for every parameter.
pub fn jt_layers_at(
    month: u32,
    ssn: f32,
    gmt: f32,
    psc_e: f32,
    psc_f1: f32,
    psc_f2: f32,
    psc_es: f32,
    ab: &TimeMaps,
    file: &[u8],
    pole_lat: f32,
    pole_lon: f32,
    lat: f32,
    lon: f32,
) -> Layers
    ensures { let i = layer_inputs month ssn gmt psc_e psc_f1 psc_f2 psc_es in
        let pole = pole_typed pole_lat pole_lon in
        result ≡ layers_as (layers_at_of i ab.now file.now pole (radians lat) (radians lon)) }
{
    let inputs = LayerInputs {
        month,
        ssn,
        gmt,
        psc: factors(psc_e, psc_f1, psc_f2, psc_es),
    };
    Layers::from(ionosphere::layer_parameters_at(
        inputs,
        ab,
        file,
        pole(pole_lat, pole_lon),
        Radians(lat),
        Radians(lon),
    ))
}
