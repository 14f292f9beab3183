// Degrees as typed and radians as worked: two types that meet only through the functions here.
ghost use Rattle.std.specs.Prelude.{◌≡◌};
ghost use Rattle.base.specs.Angle.{radians_of, degrees_of};

use crate::constants::{D2R, R2D};

#[derive(Clone, Copy)]
pub struct Degrees(pub f32);

#[derive(Clone, Copy)]
pub struct Radians(pub f32);

impl Degrees {
    // The angle in radians: the degrees times D2R, rounded once.
    pub fn to_radians(self) -> Radians
        ensures { result ≡ radians_of self }
    {
        Radians(self.0 * D2R)
    }
}

impl Radians {
    // The angle in degrees: the radians times R2D, rounded once.
    pub fn to_degrees(self) -> Degrees
        ensures { result ≡ degrees_of self }
    {
        Degrees(self.0 * R2D)
    }
}
