// The clocks of `maps::ionosphere::clocks`. Longitudes are in degrees, times in hours.
ghost use Rattle.std.specs.Prelude.{◌≡◌, not, eqb};
ghost use Rattle.maps.specs.declared.ionosphere.clocks.Direction.TheVariants.{ToLocal, ToUniversal};
ghost use Rattle.maps.specs.Clocks.{moved_of, times_of, local_time_of};
ghost use Rattle.jutetrowel.specs.Fields.{degrees};
ghost use Rattle.jutetrowel.specs.Clocks.{clock_answer, hours_answer, local_answer};

use base::angle::Degrees;
use base::refusal::Refusal;
use maps::ionosphere::clocks;
use maps::ionosphere::clocks::{Direction, HourTimes, Shifted};

// A time and its change of day: -1, 0 or 1. Refused, both +0, with the refusal's number and place.
#[repr(C)]
#[derive(Clone, Copy)]
pub struct ClockAnswer {
    pub time: f32,
    pub day: f32,
    pub number: u32,
    pub place: u32,
}

// An hour in universal time and in local time at both ends. Refused, all +0.
#[repr(C)]
#[derive(Clone, Copy)]
pub struct HoursAnswer {
    pub gmt: f32,
    pub lmt_tx: f32,
    pub gmtr: f32,
    pub number: u32,
    pub place: u32,
}

// A local time. Refused, +0.
#[repr(C)]
#[derive(Clone, Copy)]
pub struct LocalAnswer {
    pub time: f32,
    pub number: u32,
    pub place: u32,
}

// A time that was moved as C has it, or the refusal with +0 for both.
impl From<Result<Shifted, Refusal>> for ClockAnswer {
    fn from(moved: Result<Shifted, Refusal>) -> ClockAnswer
        ensures { result ≡ clock_answer moved }
    {
        match moved {
            Ok(x) => ClockAnswer {
                time: x.time,
                day: x.day,
                number: 0,
                place: 0,
            },
            Err(why) => ClockAnswer {
                time: 0.0,
                day: 0.0,
                number: why.number(),
                place: why.place(),
            },
        }
    }
}

// The three times as C has them, or the refusal with +0 for all.
impl From<Result<HourTimes, Refusal>> for HoursAnswer {
    fn from(times: Result<HourTimes, Refusal>) -> HoursAnswer
        ensures { result ≡ hours_answer times }
    {
        match times {
            Ok(x) => HoursAnswer {
                gmt: x.gmt,
                lmt_tx: x.lmt_tx,
                gmtr: x.gmtr,
                number: 0,
                place: 0,
            },
            Err(why) => HoursAnswer {
                gmt: 0.0,
                lmt_tx: 0.0,
                gmtr: 0.0,
                number: why.number(),
                place: why.place(),
            },
        }
    }
}

// A local time as C has it, or the refusal with +0.
impl From<Result<f32, Refusal>> for LocalAnswer {
    fn from(local: Result<f32, Refusal>) -> LocalAnswer
        ensures { result ≡ local_answer local }
    {
        match local {
            Ok(x) => LocalAnswer {
                time: x,
                number: 0,
                place: 0,
            },
            Err(why) => LocalAnswer {
                time: 0.0,
                number: why.number(),
                place: why.place(),
            },
        }
    }
}

// A universal time in hours made local at a longitude in degrees, with the change of day. Refuses
// as `cngtim`, with zeros for the time and the day.
pub fn jt_cngtim_to_local(time: f32, lon: f32) -> ClockAnswer
    ensures { result ≡ clock_answer (moved_of time (degrees lon) ToLocal) }
{
    ClockAnswer::from(clocks::cngtim(time, Degrees(lon), Direction::ToLocal))
}

// A local time in hours at a longitude in degrees made universal, with the change of day. Refuses
// as `cngtim`, with zeros for the time and the day.
pub fn jt_cngtim_to_universal(time: f32, lon: f32) -> ClockAnswer
    ensures { result ≡ clock_answer (moved_of time (degrees lon) ToUniversal) }
{
    ClockAnswer::from(clocks::cngtim(time, Degrees(lon), Direction::ToUniversal))
}

// A whole hour at both ends of a path; it is the transmitter's local time where `local` is not 0.
// Refuses as `geotim`, with zeros for the times.
pub fn jt_geotim(hour: u32, local: u32, tlong: f32, rlong: f32) -> HoursAnswer
    ensures { result ≡ hours_answer (times_of hour (not (eqb local 0)) (degrees tlong) (degrees rlong)) }
{
    HoursAnswer::from(clocks::geotim(hour, local != 0, Degrees(tlong), Degrees(rlong)))
}

// The local time in hours at one place, its longitude in degrees, for a universal time. Refuses as
// `geotim_clck`, with zero for the time.
pub fn jt_geotim_clck(gmt: f32, lon: f32) -> LocalAnswer
    ensures { result ≡ local_answer (local_time_of gmt (degrees lon)) }
{
    LocalAnswer::from(clocks::geotim_clck(gmt, Degrees(lon)))
}
