// The 15 fields of the inputs: their ranges, and what a change puts in their place.
ghost use Rattle.std.specs.Prelude.{◌≡◌};
ghost use Rattle.worksheet.specs.Inputs.{sunspot_check, factor_check, flag_check, route_check, factors_check, pole_check, inputs_check, edit_check, edited};

use base::ranges::{
    hour_check, is_bit, is_to, latitude_check, longitude_check, model_check, month_check,
};
use base::refusal::{Refusal, Verdict, refuse_unless};
use maps::inputs::{Factors, Inputs, MagneticPole, Route};

// A change, with all its numbers; a path is fields 4 to 8, the flag included. Over a pair of files a
// changed month or model is shown from the files as they are lent (`showing`).
#[derive(Clone, Copy)]
pub enum Edit {
    Sunspot(f32),
    Hour(f32),
    Path(Route),
    Psc(Factors),
    Pole(MagneticPole),
    Month(u32),
    Model(u32),
}

fn sunspot_check(x: f32) -> Verdict
    ensures { result ≡ sunspot_check x }
{
    refuse_unless(is_to(0.0, 300.0, x), Refusal::Sunspot)
}

fn factor_check(field: u32, x: f32) -> Verdict
    ensures { result ≡ factor_check field x }
{
    refuse_unless(is_to(0.125, 8.0, x), Refusal::Factor(field))
}

// The flag of the long way is 0 or 1.
fn flag_check(flag: u32) -> Verdict
    ensures { result ≡ flag_check flag }
{
    refuse_unless(is_bit(flag), Refusal::Flag)
}

#[tactic(auto, unfolding(crate::specs::Inputs::route_check))]
fn route_check(p: Route) -> Verdict
    ensures { result ≡ route_check p }
{
    latitude_check(4, p.tlat)?;
    longitude_check(5, p.tlong)?;
    latitude_check(6, p.rlat)?;
    longitude_check(7, p.rlong)?;
    flag_check(p.long_path)
}

#[tactic(auto, unfolding(crate::specs::Inputs::factors_check))]
fn factors_check(p: Factors) -> Verdict
    ensures { result ≡ factors_check p }
{
    factor_check(9, p.e)?;
    factor_check(10, p.f1)?;
    factor_check(11, p.f2)?;
    factor_check(12, p.es)
}

#[tactic(auto, unfolding(crate::specs::Inputs::pole_check))]
fn pole_check(p: MagneticPole) -> Verdict
    ensures { result ≡ pole_check p }
{
    latitude_check(13, p.lat)?;
    longitude_check(14, p.lon)
}

// The first bad field of the inputs decides.
#[tactic(auto, unfolding(crate::specs::Inputs::inputs_check))]
pub(crate) fn inputs_check(i: Inputs) -> Verdict
    ensures { result ≡ inputs_check i }
{
    month_check(i.month)?;
    sunspot_check(i.ssn)?;
    hour_check(i.gmt)?;
    route_check(i.route)?;
    factors_check(i.psc)?;
    pole_check(i.pole)?;
    model_check(i.model)
}

// The changed fields, and no other.
#[tactic(auto, unfolding(crate::specs::Inputs::edit_check))]
pub(crate) fn edit_check(e: Edit) -> Verdict
    ensures { result ≡ edit_check e }
{
    match e {
        Edit::Sunspot(x) => sunspot_check(x),
        Edit::Hour(x) => hour_check(x),
        Edit::Path(p) => route_check(p),
        Edit::Psc(p) => factors_check(p),
        Edit::Pole(p) => pole_check(p),
        Edit::Month(m) => month_check(m),
        Edit::Model(m) => model_check(m),
    }
}

// The inputs with the changed fields in the place of theirs, and every other field as it was.
#[tactic(auto, unfolding(crate::specs::Inputs::edited))]
pub(crate) fn apply(e: Edit, i: Inputs) -> Inputs
    ensures { result ≡ edited e i }
{
    match e {
        Edit::Sunspot(ssn) => Inputs { ssn, ..i },
        Edit::Hour(gmt) => Inputs { gmt, ..i },
        Edit::Path(route) => Inputs { route, ..i },
        Edit::Psc(psc) => Inputs { psc, ..i },
        Edit::Pole(pole) => Inputs { pole, ..i },
        Edit::Month(month) => Inputs { month, ..i },
        Edit::Model(model) => Inputs { model, ..i },
    }
}
