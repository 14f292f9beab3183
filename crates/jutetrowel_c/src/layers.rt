// Exports `jutetrowel::layers`: a path, the six maps at an hour, the layers at a place. Of the fields
// only the layers' month is judged: a whole sheet judges all, these take them as they are.
ghost use Rattle.std.specs.Prelude.{◌≡◌};
ghost use Rattle.base.specs.Refusal.{written_over};
ghost use Rattle.base.specs.Files.{files_check};
ghost use Rattle.maps.specs.Inputs.{is_long};
ghost use Rattle.maps.specs.Geometry.{path_of};
ghost use Rattle.maps.specs.Ionosphere.{hour_maps_of, layers_at_of};
ghost use Rattle.jutetrowel.specs.Answers.{answer_of};
ghost use Rattle.jutetrowel.specs.Fields.{degrees, radians, pole_typed};
ghost use Rattle.jutetrowel.specs.Layers.{layer_inputs, measured_of, layers_as};

use jutetrowel::answers::Answer;
use jutetrowel::layers;
use jutetrowel::layers::{Layers, Measured};
use maps::ionosphere::virtim::TimeMaps;

// The path between two ends in degrees, its six figures, both bearings in degrees and its number of
// points; a flag that is not 0 is the long way round. Nothing is refused.
#[unsafe(no_mangle)]
pub extern "C" fn jt_path(
    tlat: f32,
    tlong: f32,
    rlat: f32,
    rlong: f32,
    long_path: u32,
    pole_lat: f32,
    pole_lon: f32,
) -> Measured
    ensures { let long = is_long long_path in
        let pole = pole_typed pole_lat pole_lon in
        result ≡ measured_of (path_of (degrees tlat) (degrees tlong) (degrees rlat) (degrees rlong) long pole) }
{
    layers::jt_path(tlat, tlong, rlat, rlong, long_path, pole_lat, pole_lon)
}

// The coefficients of the six maps at a sunspot number and an hour. Refuses 8, 9, 10, 23, 11; the
// array stays as it is.
#[unsafe(no_mangle)]
pub extern "C" fn jt_hour_maps(
    f2: &[u8],
    file: &[u8],
    ssn: f32,
    gmt: f32,
    ab: &mut TimeMaps,
) -> Answer
    ensures answer { result ≡ answer_of (files_check f2.now file.now) }
    ensures buffer { let f = f2.now in
        let m = file.now in
        ab.new ≡ written_over (files_check f m) (hour_maps_of f m ssn gmt) ab.old }
{
    layers::jt_hour_maps(f2, file, ssn, gmt, ab)
}

// The layers at a place in radians, from the maps at the hour and a month file. Refuses 1, then 9,
// 10, 23, 11, with +0.0 for every parameter.
#[unsafe(no_mangle)]
pub extern "C" fn jt_layers_at(
    month: u32,
    ssn: f32,
    gmt: f32,
    psc_e: f32,
    psc_f1: f32,
    psc_f2: f32,
    psc_es: f32,
    ab: &TimeMaps,
    file: &[u8],
    pole_lat: f32,
    pole_lon: f32,
    lat: f32,
    lon: f32,
) -> Layers
    ensures { let i = layer_inputs month ssn gmt psc_e psc_f1 psc_f2 psc_es in
        let pole = pole_typed pole_lat pole_lon in
        result ≡ layers_as (layers_at_of i ab.now file.now pole (radians lat) (radians lon)) }
{
    layers::jt_layers_at(
        month, ssn, gmt, psc_e, psc_f1, psc_f2, psc_es, ab, file, pole_lat, pole_lon, lat, lon,
    )
}
