// Exports `jutetrowel::clocks`. Longitudes are in degrees, times in hours.
ghost use Rattle.std.specs.Prelude.{◌≡◌, not, eqb};
ghost use Rattle.maps.specs.declared.ionosphere.clocks.Direction.TheVariants.{ToLocal, ToUniversal};
ghost use Rattle.maps.specs.Clocks.{moved_of, times_of, local_time_of};
ghost use Rattle.jutetrowel.specs.Fields.{degrees};
ghost use Rattle.jutetrowel.specs.Clocks.{clock_answer, hours_answer, local_answer};

use jutetrowel::clocks;
use jutetrowel::clocks::{ClockAnswer, HoursAnswer, LocalAnswer};

// A universal time in hours made local at a longitude in degrees, with the change of day. Refuses
// as `cngtim`, with zeros for the time and the day.
#[unsafe(no_mangle)]
pub extern "C" fn jt_cngtim_to_local(time: f32, lon: f32) -> ClockAnswer
    ensures { result ≡ clock_answer (moved_of time (degrees lon) ToLocal) }
{
    clocks::jt_cngtim_to_local(time, lon)
}

// A local time in hours at a longitude in degrees made universal, with the change of day. Refuses
// as `cngtim`, with zeros for the time and the day.
#[unsafe(no_mangle)]
pub extern "C" fn jt_cngtim_to_universal(time: f32, lon: f32) -> ClockAnswer
    ensures { result ≡ clock_answer (moved_of time (degrees lon) ToUniversal) }
{
    clocks::jt_cngtim_to_universal(time, lon)
}

// A whole hour at both ends of a path; it is the transmitter's local time where `local` is not 0.
// Refuses as `geotim`, with zeros for the times.
#[unsafe(no_mangle)]
pub extern "C" fn jt_geotim(hour: u32, local: u32, tlong: f32, rlong: f32) -> HoursAnswer
    ensures { result ≡ hours_answer (times_of hour (not (eqb local 0)) (degrees tlong) (degrees rlong)) }
{
    clocks::jt_geotim(hour, local, tlong, rlong)
}

// The local time in hours at one place, its longitude in degrees, for a universal time. Refuses as
// `geotim_clck`, with zero for the time.
#[unsafe(no_mangle)]
pub extern "C" fn jt_geotim_clck(gmt: f32, lon: f32) -> LocalAnswer
    ensures { result ≡ local_answer (local_time_of gmt (degrees lon)) }
{
    clocks::jt_geotim_clck(gmt, lon)
}
