// The figures of a sheet by its fields, and a whole sheet as the program `sheet` gives it.
ghost use Rattle.std.specs.Prelude.{◌≡◌};
ghost use Rattle.worksheet.specs.Desks.{sheet_opened_of};
ghost use Rattle.worksheet.specs.Showing.{pair, drawn_of, drawn_buffer};
ghost use Rattle.worksheet.specs.Journal.{show as showCall, step};
ghost use Rattle.jutetrowel.specs.Answers.{showing_of};
ghost use Rattle.jutetrowel.specs.Fields.{inputs_typed};
ghost use Rattle.jutetrowel.specs.Calls.{Shows};

use crate::answers::Showing;
use crate::fields::{factors, pole, route};
use maps::inputs::Inputs;
use worksheet::desks::sheet_opened;
use worksheet::showing::{drawn, show};

// The number of points of a sheet by its fields, which nothing judges, with its figures in the
// buffer; a flag that is not 0 is the long way round. Refuses 12, 8, 9, 10, 23, 11; the buffer
// stays.
#[tactic(auto, unfolding(crate::specs::Fields::inputs_typed))]
pub fn jt_figures(
    month: u32,
    ssn: f32,
    gmt: f32,
    tlat: f32,
    tlong: f32,
    rlat: f32,
    rlong: f32,
    long_path: u32,
    psc_e: f32,
    psc_f1: f32,
    psc_f2: f32,
    psc_es: f32,
    pole_lat: f32,
    pole_lon: f32,
    f2: &[u8],
    file: &[u8],
    out: &mut [f32],
) -> Showing
    ensures answer { let i = inputs_typed month ssn gmt tlat tlong rlat rlong long_path
        psc_e psc_f1 psc_f2 psc_es pole_lat pole_lon in
        let files = pair f2.now file.now i in
        result ≡ showing_of (drawn_of files i out.old) }
    ensures buffer { let i = inputs_typed month ssn gmt tlat tlong rlat rlong long_path
        psc_e psc_f1 psc_f2 psc_es pole_lat pole_lon in
        let files = pair f2.now file.now i in
        out.new ≡ drawn_buffer files i out.old }
{
    let i = Inputs {
        month,
        ssn,
        gmt,
        route: route(tlat, tlong, rlat, rlong, long_path),
        psc: factors(psc_e, psc_f1, psc_f2, psc_es),
        pole: pole(pole_lat, pole_lon),
        model: 0,
    };
    Showing::from(drawn(i, f2, file, out))
}

// A whole sheet of 14 little-endian words, an F2 record and a month file: the number of points,
// with the figures in the buffer. A 15th word is not read: the model is 0. Refuses the fields, 12,
// 8, 9, 10, 23, 11; the buffer stays.
#[tactic(auto, unfolding(worksheet::specs::Journal::step))]
pub fn jt_sheet(words: &[u8], f2: &[u8], file: &[u8], out: &mut [f32]) -> Showing
    ensures { Shows (step (pair f2.now file.now)
        (showCall 0 out.old) (sheet_opened_of words.now).sheet).answer
        result out.new }
{
    let w = sheet_opened(words).sheet;
    Showing::from(show(w, 0, f2, file, out))
}
