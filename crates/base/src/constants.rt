// The physical constants of constants.rs, in its digits. PI is the engine's own 3.1415926.
ghost use Rattle.std.specs.Prelude.{◌≡◌};
ghost use Rattle.base.specs.Constants.{constants};

pub const D2R: f32 = 0.01745329251;

pub const R2D: f32 = 57.295779513;

pub const PI: f32 = 3.1415926;

pub const PI2: f32 = 6.283185307;

pub const PIO2: f32 = 1.570796326;
// Earth radius, km.
pub const RZ: f32 = 6370.0;
// The speed of light, Euler's constant and DCL: no ported function reads them.
pub const VOFL: f32 = 299.79246;

pub const GAMA: f32 = 0.57721566;

pub const DCL: f32 = 1.28;

// The constants of this module in their order.
pub type Constants = [f32; 9];

// The nine constants of this module in their order, D2R to DCL, which is what the comparison with
// the Rust reads.
pub fn all() -> Constants
    ensures { result ≡ constants }
{
    [D2R, R2D, PI, PI2, PIO2, RZ, VOFL, GAMA, DCL]
}
