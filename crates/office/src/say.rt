// `desk say`: a call on a journal that four desks share. The journal is run, the call answered and
// its line put behind the others, all under the journal's lock; the line is on its device before
// the answer is printed.
ghost use Rattle.std.specs.Prelude.{◌≡◌, ◌≤◌, length};
ghost use Rattle.io.specs.Counts.{IsPrefixLen};
ghost use Rattle.office.specs.Said.{said_size};

use crate::files::{Source, load};
use crate::journal::{CHUNK, End, Ran, hear_all, is_ended, long_text};
use crate::keep::{Unkept, keep, open_journal, say_aside, set_aside};
use crate::link::is_own;
use crate::lock::{LINE, give_back, signature, take};
use crate::name::{NAME, argument, beside, is_dash};
use crate::usage::usage;
use listing::spoken::SPOKEN;
use packing::YEAR_MOST;
use sitting::pass;
use std::io::Print;
use std::rt::{Clock, Env, Files, Process};
use system::{arg_count, join, print};
use wording::line::{Line, line_in};

// Puts argument k behind the first n bytes of a line, after a blank; where it does not fit the line
// is full.
fn word_after(env: &impl Env, line: &mut [u8], n: usize, k: usize) -> usize
    requires { n ≤ length line.old }
    ensures { IsPrefixLen result line.new }
{
    let mut word = [0u8; NAME];
    match system::argument(env, k, &mut word) {
        Ok(m) => {
            let n = join(line, n, b" ");
            join(line, n, &word[..m])
        }
        Err(_) => line.len(),
    }
}

// The arguments from i on as a line, with a blank before each, and its length.
fn words_from(env: &impl Env, i: usize, line: &mut [u8]) -> usize
    ensures { IsPrefixLen result line.new }
{
    let mut n = 0usize;
    for k in i..arg_count(env) {
        n = word_after(env, line, n, k);
    }
    n
}

// What came of the call.
#[derive(Clone, Copy)]
enum Outcome<'t> {
    // It is answered so, and its line is on its device.
    Kept(&'t [u8]),
    // It is answered so, and not kept.
    Answered(&'t [u8]),
    // The journal ends before it, with its line of this number, of which this is said.
    Late(u64, &'t [u8]),
    // It was not made; what failed was said.
    Failed,
    // Its line could not be written, nor the journal be cut back, so that some of it may stand.
    Unsure,
}

// What is told once the lock is given back, so that a reader who is slow holds up no other desk: the
// number of a line that was cut short and put aside, and what came of the call.
#[derive(Clone, Copy)]
struct Told<'t> {
    aside: Option<u64>,
    outcome: Outcome<'t>,
}

impl<'t> Told<'t> {
    fn only(outcome: Outcome<'t>) -> Told<'t>
        ensures { result.outcome ≡ outcome.entry }
    {
        Told {
            aside: None,
            outcome,
        }
    }
}

// Answers the call of a line on the sitting that the journal left, and keeps its line behind the
// others: one that is no call, and an open that is refused, are answered and not kept.
fn answer<'t, R: Files>(
    files: &R,
    journal: &mut R::File,
    name: &[u8],
    ran: Ran,
    line: &[u8],
    source: Source<'_>,
    text: &'t mut [u8; SPOKEN],
) -> Outcome<'t>
    ensures { said_size result ≤ length text.old }
{
    let heard = source.hear(ran.sitting, line, ran.number(), text);
    let said = &text[..heard.size];
    if is_ended(heard.sitting) {
        return Outcome::Answered(said);
    }
    match keep(files, journal, name, ran.bytes, line) {
        Ok(()) => Outcome::Kept(said),
        Err(Unkept::Failed) => Outcome::Failed,
        Err(Unkept::Unsure) => Outcome::Unsure,
    }
}

// The same once what was cut short, if anything, is put aside.
fn answer_clean<'t, R: Files>(
    files: &R,
    journal: &mut R::File,
    name: &[u8],
    ran: Ran,
    rest: &[u8],
    line: &[u8],
    source: Source<'_>,
    text: &'t mut [u8; SPOKEN],
) -> Told<'t>
    ensures { said_size result.outcome ≤ length text.old }
{
    if !rest.is_empty() && !set_aside(files, journal, name, ran.bytes, rest) {
        return Told::only(Outcome::Failed);
    }
    Told {
        aside: (!rest.is_empty()).then_some(ran.number()),
        outcome: answer(files, journal, name, ran, line, source, text),
    }
}

// What is said of the line that ends the journal.
fn why_stopped<'t>(
    ran: Ran,
    line: &[u8],
    source: Source<'_>,
    text: &'t mut [u8; SPOKEN],
) -> Outcome<'t>
    ensures { said_size result ≤ length text.old }
{
    let number = ran.number();
    let heard = source.hear(ran.sitting, line, number, text);
    Outcome::Late(number, &text[..heard.size])
}

// The journal's lines in silence, then the call; or what ends the journal before it.
fn say_into<'t, R: Files>(
    files: &R,
    journal: &mut R::File,
    name: &[u8],
    line: &[u8],
    source: Source<'_>,
    text: &'t mut [u8; SPOKEN],
) -> Told<'t>
    ensures { said_size result.outcome ≤ length text.old }
{
    let mut buffer = [0u8; CHUNK];
    let (ran, end) = hear_all(journal, name, &mut buffer, |before, line, _| {
        Some(pass(before, line))
    });
    let rest = ran.left(&buffer);
    match end {
        End::Input => answer_clean(files, journal, name, ran, rest, line, source, text),
        End::Line => Told::only(why_stopped(ran, rest, source, text)),
        End::Long => Told::only(Outcome::Late(ran.number(), long_text(ran.number(), text))),
        End::Failed => Told::only(Outcome::Failed),
    }
}

fn say_open<'t>(
    files: &impl Files,
    name: &[u8],
    line: &[u8],
    source: Source<'_>,
    text: &'t mut [u8; SPOKEN],
) -> Told<'t>
    ensures { said_size result.outcome ≤ length text.old }
{
    match open_journal(files, name) {
        Some(mut journal) => say_into(files, &mut journal, name, line, source, text),
        None => Told::only(Outcome::Failed),
    }
}

// The last words wherever there is no answer.
fn say_unmade() {
    system::say("the call was not made");
}

// Tells what was put aside, the answer, and what came of the call where the answer does not say it
// or could not be written.
fn tell(out: &impl Print, name: &[u8], told: Told<'_>) {
    if let Some(number) = told.aside {
        say_aside(name, number);
    }
    match told.outcome {
        Outcome::Kept(text) => {
            if !print(out, text) {
                system::say("the call was made, and its line is kept");
            }
        }
        Outcome::Answered(text) => {
            if !print(out, text) {
                say_unmade();
            }
        }
        Outcome::Late(line, text) => {
            print(out, text);
            system::say(format_args!(
                "the journal ends at its line {line}: the call was not made; mend that line first"
            ));
        }
        Outcome::Failed => say_unmade(),
        Outcome::Unsure => {
            system::say("the journal could not be cut back: look at its last line");
        }
    }
}

// With the journal's lock, which is given back before the answer. What fails under it is said at
// once, and the last words come after it.
fn say_locked(
    rt: &(impl Files + Clock + Print),
    process: Process,
    name: &[u8],
    line: &[u8],
    source: Source<'_>,
) {
    let mut lock = [0u8; NAME];
    let lock = beside(name, b".lock", &mut lock);
    let mut own = [0u8; LINE];
    let own = signature(rt, process, &mut own);
    if !is_own(rt, name) || !take(rt, lock, own) {
        say_unmade();
        return;
    }
    let mut text = [0u8; SPOKEN];
    let told = say_open(rt, name, line, source, &mut text);
    give_back(rt, lock, own);
    tell(rt, name, told);
}

fn say_from(
    rt: &(impl Files + Env + Clock + Print),
    process: Process,
    line: &[u8],
    source: Source<'_>,
) {
    let mut name = [0u8; NAME];
    match argument(rt, 2, &mut name) {
        // Standard input is no journal that four desks share.
        Some(name) if is_dash(name) => usage(),
        Some(name) => say_locked(rt, process, name, line, source),
        None => say_unmade(),
    }
}

// By itself: beside what comes before it the buffer would be zeroed twice.
fn say_over(rt: &(impl Files + Env + Clock + Print), process: Process, pair: bool, line: &[u8]) {
    let mut files = [0u8; YEAR_MOST];
    match load(rt, pair, &mut files) {
        Some(source) => say_from(rt, process, line, source),
        None => say_unmade(),
    }
}

fn say_line(rt: &(impl Files + Env + Clock + Print), process: Process, pair: bool, line: &[u8]) {
    if line.len() == NAME {
        system::say("the call is too long: it has at most 4095 bytes");
        say_unmade();
    } else if matches!(line_in(line), Line::Blank) {
        usage();
    } else {
        say_over(rt, process, pair, line);
    }
}

// Says the call that the last arguments are on the journal of argument 2, over the year file of
// argument 3, or over the record and the month file of arguments 3 and 4.
pub fn say(rt: &(impl Files + Env + Clock + Print), process: Process, pair: bool) {
    let mut line = [0u8; NAME];
    let n = words_from(rt, if pair { 5 } else { 4 }, &mut line);
    say_line(rt, process, pair, &line[..n]);
}
