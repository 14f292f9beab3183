// `desk run`: the answer to each line of a journal.
use crate::files::{Source, load};
use crate::journal::{CHUNK, End, hear_all, long_text, say_cut};
use crate::name::{NAME, argument, is_dash};
use listing::spoken::SPOKEN;
use packing::YEAR_MOST;
use sitting::Sitting;
use std::io::{Input, Print, Read};
use std::rt::{Env, Files};
use system::{opened, print, say};

// The sitting after a line whose answer is printed, unless it cannot be.
fn spoken(
    out: &impl Print,
    before: Sitting,
    line: &[u8],
    number: u64,
    source: Source<'_>,
) -> Option<Sitting> {
    let mut text = [0u8; SPOKEN];
    let heard = source.hear(before, line, number, &mut text);
    print(out, &text[..heard.size]).then_some(heard.sitting)
}

fn run_over(input: &mut impl Read, out: &impl Print, name: &[u8], source: Source<'_>) {
    let mut buffer = [0u8; CHUNK];
    let (ran, end) = hear_all(input, name, &mut buffer, |before, line, number| {
        spoken(out, before, line, number, source)
    });
    match end {
        End::Input if ran.from < ran.to => say_cut(ran.number()),
        End::Input if ran.bytes == 0 => say("the journal has no line"),
        End::Long => {
            let mut text = [0u8; SPOKEN];
            print(out, long_text(ran.number(), &mut text));
        }
        End::Input | End::Line | End::Failed => {}
    }
}

fn run_named(rt: &(impl Files + Input + Print), name: &[u8], source: Source<'_>) {
    if is_dash(name) {
        run_over(&mut rt.reader(), rt, b"standard input", source);
    } else if let Some(mut file) = opened(rt, name) {
        run_over(&mut file, rt, name, source);
    }
}

fn run_from(rt: &(impl Files + Env + Input + Print), source: Source<'_>) {
    let mut name = [0u8; NAME];
    if let Some(name) = argument(rt, 2, &mut name) {
        run_named(rt, name, source);
    }
}

// Runs the journal that argument 2 names over the year file of argument 3, or over the record and
// the month file of arguments 3 and 4.
pub fn run(rt: &(impl Files + Env + Input + Print), pair: bool) {
    let mut files = [0u8; YEAR_MOST];
    if let Some(source) = load(rt, pair, &mut files) {
        run_from(rt, source);
    }
}
