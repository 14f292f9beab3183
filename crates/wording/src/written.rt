// Calls as they are written, their numbers as decimals, and the calls on a worksheet that they are.
ghost use Rattle.std.specs.Prelude.{◌≡◌};
ghost use Rattle.wording.specs.Written.{degrees_written, route_written, factors_written, pole_written, inputs_written, edit_written, call_written};

use crate::number::{Decimal, float_of};
use base::angle::Degrees;
use maps::inputs::{Factors, Inputs, MagneticPole, Route};
use worksheet::inputs::Edit;
use worksheet::journal::Call;

// The parts of the inputs, as `maps::inputs` has them, with decimals in the place of floats.
#[derive(Clone, Copy)]
pub struct WrittenRoute {
    pub tlat: Decimal,
    pub tlong: Decimal,
    pub rlat: Decimal,
    pub rlong: Decimal,
    pub long_path: u32,
}

#[derive(Clone, Copy)]
pub struct WrittenFactors {
    pub e: Decimal,
    pub f1: Decimal,
    pub f2: Decimal,
    pub es: Decimal,
}

#[derive(Clone, Copy)]
pub struct WrittenPole {
    pub lat: Decimal,
    pub lon: Decimal,
}

#[derive(Clone, Copy)]
pub struct WrittenInputs {
    pub month: u32,
    pub ssn: Decimal,
    pub gmt: Decimal,
    pub route: WrittenRoute,
    pub psc: WrittenFactors,
    pub pole: WrittenPole,
    pub model: u32,
}

#[derive(Clone, Copy)]
pub enum WrittenEdit {
    Sunspot(Decimal),
    Hour(Decimal),
    Path(WrittenRoute),
    Psc(WrittenFactors),
    Pole(WrittenPole),
    Month(u32),
    Model(u32),
}

#[derive(Clone, Copy)]
pub enum WrittenCall {
    Begin(u32),
    Change(u32, WrittenEdit),
    Commit(u32),
    Cancel(u32),
    TakeBack,
    Show(u32),
}

fn degrees_written(d: Decimal) -> Degrees
    ensures { result ≡ degrees_written d }
{
    Degrees(float_of(d))
}

fn route_written(p: WrittenRoute) -> Route
    ensures { result ≡ route_written p }
{
    Route {
        tlat: degrees_written(p.tlat),
        tlong: degrees_written(p.tlong),
        rlat: degrees_written(p.rlat),
        rlong: degrees_written(p.rlong),
        long_path: p.long_path,
    }
}

fn factors_written(p: WrittenFactors) -> Factors
    ensures { result ≡ factors_written p }
{
    Factors {
        e: float_of(p.e),
        f1: float_of(p.f1),
        f2: float_of(p.f2),
        es: float_of(p.es),
    }
}

fn pole_written(p: WrittenPole) -> MagneticPole
    ensures { result ≡ pole_written p }
{
    MagneticPole {
        lat: degrees_written(p.lat),
        lon: degrees_written(p.lon),
    }
}

// The inputs that an open names.
pub fn inputs_written(o: WrittenInputs) -> Inputs
    ensures { result ≡ inputs_written o }
{
    Inputs {
        month: o.month,
        ssn: float_of(o.ssn),
        gmt: float_of(o.gmt),
        route: route_written(o.route),
        psc: factors_written(o.psc),
        pole: pole_written(o.pole),
        model: o.model,
    }
}

fn edit_written(e: WrittenEdit) -> Edit
    ensures { result ≡ edit_written e }
{
    match e {
        WrittenEdit::Sunspot(d) => Edit::Sunspot(float_of(d)),
        WrittenEdit::Hour(d) => Edit::Hour(float_of(d)),
        WrittenEdit::Path(p) => Edit::Path(route_written(p)),
        WrittenEdit::Psc(p) => Edit::Psc(factors_written(p)),
        WrittenEdit::Pole(p) => Edit::Pole(pole_written(p)),
        WrittenEdit::Month(m) => Edit::Month(m),
        WrittenEdit::Model(m) => Edit::Model(m),
    }
}

// The call that a written one is.
pub fn call_written(c: WrittenCall) -> Call
    ensures { result ≡ call_written c }
{
    match c {
        WrittenCall::Begin(n) => Call::Begin(n),
        WrittenCall::Change(n, e) => Call::Change(n, edit_written(e)),
        WrittenCall::Commit(n) => Call::Commit(n),
        WrittenCall::Cancel(n) => Call::Cancel(n),
        WrittenCall::TakeBack => Call::TakeBack,
        WrittenCall::Show(n) => Call::Show(n),
    }
}
