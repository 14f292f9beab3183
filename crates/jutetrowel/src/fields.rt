// Fields of a sheet that come one by one, as the crates below take them.
ghost use Rattle.std.specs.Prelude.{◌≡◌};
ghost use Rattle.jutetrowel.specs.Fields.{route_typed, factors_of, pole_typed};

use base::angle::Degrees;
use maps::inputs::{Factors, MagneticPole, Route};

pub(crate) fn route(tlat: f32, tlong: f32, rlat: f32, rlong: f32, long_path: u32) -> Route
    ensures { result ≡ route_typed tlat tlong rlat rlong long_path }
{
    Route {
        tlat: Degrees(tlat),
        tlong: Degrees(tlong),
        rlat: Degrees(rlat),
        rlong: Degrees(rlong),
        long_path,
    }
}

pub(crate) fn factors(e: f32, f1: f32, f2: f32, es: f32) -> Factors
    ensures { result ≡ factors_of e f1 f2 es }
{
    Factors { e, f1, f2, es }
}

pub(crate) fn pole(lat: f32, lon: f32) -> MagneticPole
    ensures { result ≡ pole_typed lat lon }
{
    MagneticPole {
        lat: Degrees(lat),
        lon: Degrees(lon),
    }
}
