// Local and universal time: CNGTIM's shift by a longitude with its change of day, and GEOTIM's
// times of one hour.
ghost use Rattle.std.specs.Prelude.{◌≡◌, ◌+ℤ◌, Err, Ok};
ghost use Rattle.std.specs.Float.{binary32};
ghost use Rattle.std.specs.Float.Ieee.{of_int};
ghost use Rattle.base.specs.Refusal.{unless_refused};
ghost use Rattle.maps.specs.Clocks.{fisw_of, theta_of, whole_of, after_shift, cngday_of, for_loop, wraps, cngtim_of, time_at, geotim_of, time_check, hours_check, moved_of, times_of, local_time_of};

use base::angle::{Degrees, Radians};
use base::number::{from_i32, narrow, to_i32};
use base::ranges::{hour_check, longitude_check};
use base::refusal::{Refusal, Verdict, refuse_unless};

// From universal time to local time, or back: the Rust's `isw` of 1 and -1.
#[derive(Clone, Copy)]
pub enum Direction {
    ToLocal,
    ToUniversal,
}

// A time, hours, and the change of day that goes with it: -1, 0 or 1.
#[derive(Clone, Copy)]
pub struct Shifted {
    pub time: f32,
    pub day: f32,
}

// One hour in universal time, and in local time at the transmitter and at the receiver.
#[derive(Clone, Copy)]
pub struct HourTimes {
    pub gmt: f32,
    pub lmt_tx: f32,
    pub gmtr: f32,
}

fn fisw_of(direction: Direction) -> f32
    ensures { result ≡ fisw_of direction }
{
    match direction {
        Direction::ToLocal => 1.0,
        Direction::ToUniversal => -1.0,
    }
}

// A longitude below 0 from the other side.
fn theta_of(xtheta: Degrees) -> f32
    ensures { result ≡ theta_of xtheta }
{
    let x = xtheta.0;
    if x < 0.0 { 360.0 + x } else { x }
}

// x without its fraction.
fn whole_of(x: f32) -> f32
    ensures { result ≡ whole_of x }
{
    from_i32(to_i32(x))
}

// The `f32` nearest to a sum of two `i32`, which an `i64` holds for any two.
fn sum_of(a: i32, b: i32) -> f32
    ensures { result ≡ of_int binary32 (a +ℤ b) }
{
    narrow(std::num::nearest_i64_to_f64(a as i64 + b as i64))
}

// The time after the shift, before it is brought back into the day.
fn after_shift(time: f32, theta: f32, direction: Direction) -> f32
    ensures { result ≡ after_shift time theta direction }
{
    let fint1 = whole_of(theta / 180.0);
    let fint2 = whole_of(theta / 360.0);
    time + fisw_of(direction) * (theta / 15.0 - fint1 * 24.0 + fint2 * 24.0)
}

// The change of day, by the time after the shift.
fn cngday_of(time: f32) -> f32
    ensures { result ≡ cngday_of time }
{
    let int1 = to_i32((time - 23.99999999) / 24.0);
    let int2 = to_i32(time / 24.0);
    sum_of(int1, int2)
}

// What the Rust's loop starts from.
fn for_loop(time: f32, theta: f32) -> f32
    ensures { result ≡ for_loop time theta }
{
    let fint2 = whole_of(theta / 360.0);
    let raised = if time < 0.0 { time + 24.0 } else { time };
    raised - fint2 * 24.0
}

// One turn of the Rust's loop, which is as many as it ever takes here.
fn wrapped(time: f32) -> f32
    ensures { result ≡ wraps 1 time }
{
    if time < 0.0 {
        time + 24.0
    } else if time > 24.0 {
        time - 24.0
    } else {
        time
    }
}

// CNGTIM of any time and longitude, refusing nothing.
fn cngtim_of(time: f32, xtheta: Degrees, direction: Direction) -> Shifted
    ensures { result ≡ cngtim_of time xtheta direction }
{
    if xtheta.0 == 0.0 {
        return Shifted { time, day: 0.0 };
    }
    let theta = theta_of(xtheta);
    let shifted = after_shift(time, theta, direction);
    Shifted {
        time: wrapped(for_loop(shifted, theta)),
        day: cngday_of(shifted),
    }
}

// CNGTIM's time at a longitude that was made radians. Degrees that were 180 may be past it by now.
fn time_at(time: f32, lon: Radians, direction: Direction) -> f32
    ensures { result ≡ time_at time lon direction }
{
    cngtim_of(time, lon.to_degrees(), direction).time
}

// GEOTIM of any hour and longitudes, refusing nothing.
fn geotim_of(jt: u32, local: bool, tlong: Radians, rlong: Radians) -> HourTimes
    ensures { result ≡ geotim_of jt local tlong rlong }
{
    let ckc = std::num::nearest_u32_to_f32(jt);
    if local {
        let gmt = time_at(ckc, tlong, Direction::ToUniversal);
        return HourTimes {
            gmt,
            lmt_tx: ckc,
            gmtr: time_at(gmt, rlong, Direction::ToLocal),
        };
    }
    HourTimes {
        gmt: ckc,
        lmt_tx: time_at(ckc, tlong, Direction::ToLocal),
        gmtr: time_at(ckc, rlong, Direction::ToLocal),
    }
}

// A time of the day and a longitude as typed.
#[tactic(auto, unfolding(crate::specs::Clocks::time_check))]
fn time_check(time: f32, lon: Degrees) -> Verdict
    ensures { result ≡ time_check time lon }
{
    hour_check(time)?;
    longitude_check(5, lon)
}

// A whole hour and both longitudes as typed.
#[tactic(auto, unfolding(crate::specs::Clocks::hours_check))]
fn hours_check(hour: u32, tlong: Degrees, rlong: Degrees) -> Verdict
    ensures { result ≡ hours_check hour tlong rlong }
{
    refuse_unless(hour <= 24, Refusal::Hour)?;
    longitude_check(5, tlong)?;
    longitude_check(7, rlong)
}

// A time of the day, hours, moved by a longitude in degrees, with the change of day. Refuses a time
// outside 0 to 24, then a longitude outside -180 to 180.
#[tactic(auto, unfolding(crate::specs::Clocks::moved_of))]
pub fn cngtim(time: f32, lon: Degrees, direction: Direction) -> Result<Shifted, Refusal>
    ensures { result ≡ moved_of time lon direction }
{
    time_check(time, lon)?;
    Ok(cngtim_of(time, lon, direction))
}

// Universal time and both ends' local times at a whole hour, universal or the transmitter's.
// Refuses an hour above 24, then a longitude outside -180 to 180 degrees, the transmitter's first.
#[tactic(auto, unfolding(crate::specs::Clocks::times_of))]
pub fn geotim(hour: u32, local: bool, tlong: Degrees, rlong: Degrees) -> Result<HourTimes, Refusal>
    ensures { result ≡ times_of hour local tlong rlong }
{
    hours_check(hour, tlong, rlong)?;
    Ok(geotim_of(hour, local, tlong.to_radians(), rlong.to_radians()))
}

// The local time, in hours, at one place for a universal time. Refuses as `cngtim` does.
#[tactic(auto, unfolding(crate::specs::Clocks::local_time_of))]
pub fn geotim_clck(gmt: f32, lon: Degrees) -> Result<f32, Refusal>
    ensures { result ≡ local_time_of gmt lon }
{
    time_check(gmt, lon)?;
    Ok(time_at(gmt, lon.to_radians(), Direction::ToLocal))
}
