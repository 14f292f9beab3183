// `desk audit`: where the sheet that a line of a journal shows comes from. The page's lines are
// `auditing`'s; here the journal is read, what is in the way is said, and the lines are printed in
// their order.
ghost use Rattle.std.specs.Prelude.{◌≡◌, ◌≤◌, IfSome, Some, length};
ghost use Rattle.office.specs.Walk.{obstacle_size};

use crate::files::{Source, load, read_whole};
use crate::journal::{CHUNK, is_ended, long_text, say_cut};
use crate::name::{NAME, argument, is_dash};
use crate::usage::usage;
use auditing::accounts::{Showing, showing_at};
use auditing::gathering::{Gathered, gather};
use auditing::marks::kept_in;
use auditing::page::page_part;
use listing::columns::COLUMNS;
use listing::spoken::SPOKEN;
use packing::YEAR_MOST;
use sitting::{Sitting, pass, waiting};
use std::io::{Input, Print, Read};
use std::rt::{Env, Files};
use system::{arg, newline_in, opened, print, print_line};
use wording::number::number_in;

// The most bytes of a journal.
const TEXT: usize = 1048576;

// The most calls up to the line, the open being one.
const CALLS: usize = 8192;

fn say_many(out: &impl Print) {
    print_line(
        out,
        "the journal has more calls up to that line than an audit holds, which is 8192",
    );
}

fn say_long_text(out: &impl Print) {
    print_line(
        out,
        "the journal is longer than an audit holds, which is 1048576 bytes: \
         audit a copy of it that ends with that line",
    );
}

fn say_none(out: &impl Print, line: usize) {
    print_line(out, format_args!("the journal has no line {line}"));
}

// ---- the page

// More parts than a page has.
const PARTS: usize = 3 * CALLS;

// What was gathered of a journal's text up to the line that is audited: where its calls stand, over
// which files they were made, and of each its mark, the number of its line and the byte where that
// begins.
#[derive(Clone, Copy)]
struct Audited<'a> {
    text: &'a [u8],
    line: usize,
    source: Source<'a>,
    gathered: Gathered,
    marks: &'a [u64],
    numbers: &'a [usize],
    starts: &'a [usize],
}

// Says part k of the page, and gives whether another follows it; the shorter list has `size` calls
// at these places.
fn say_part(
    out: &impl Print,
    audit: &Audited<'_>,
    places: &[usize],
    size: usize,
    k: usize,
) -> bool {
    let mut said = [0u8; COLUMNS];
    let part = page_part(
        audit.text,
        audit.line,
        audit.gathered,
        audit.marks,
        audit.numbers,
        audit.starts,
        places,
        size,
        audit.source.lent,
        audit.source.a,
        audit.source.b,
        k,
        &mut said,
    );
    print(out, &said[..part.size]) && !part.last
}

// The shorter list has no more calls than the journal, so that its places fit.
fn say_page(out: &impl Print, audit: &Audited<'_>) {
    let mut places = [0usize; CALLS];
    let size = kept_in(audit.marks, audit.gathered.count, &mut places);
    (0..PARTS).all(|k| say_part(out, audit, &places, size, k));
}

// ---- what is audited

// Says what `desk run` says of line `number` on this sitting.
fn say_heard(out: &impl Print, sitting: Sitting, line: &[u8], number: u64, source: Source<'_>) {
    let mut said = [0u8; SPOKEN];
    let heard = source.hear(sitting, line, number, &mut said);
    print(out, &said[..heard.size]);
}

// A showing of the worksheet that was gathered is refused as `desk run` refuses it.
fn say_refused(out: &impl Print, audit: &Audited<'_>) {
    let sitting = Sitting::Open(audit.gathered.sheet);
    say_heard(out, sitting, b"show", audit.line as u64, audit.source);
}

fn say_other(out: &impl Print, line: usize) {
    print_line(
        out,
        format_args!(
            "line {line} does not show the worksheet: an audit is of a line that says show"
        ),
    );
}

// The page of a line whose call is the last that was gathered, or why there is none.
fn audit_line(out: &impl Print, audit: &Audited<'_>) {
    match showing_at(audit.marks, audit.numbers, audit.gathered.count, audit.line) {
        Showing::Shown => say_page(out, audit),
        Showing::Refused => say_refused(out, audit),
        Showing::Other => say_other(out, audit.line),
    }
}

// Why a journal does not go as far as a line of it.
#[derive(Clone, Copy)]
enum Obstacle<'t> {
    // There are fewer lines, and these bytes behind the last one.
    Fewer(&'t [u8]),
    // This line ends it on this sitting.
    Ends(Sitting, &'t [u8]),
    // A line is longer than `desk run` reads.
    Long,
}

// How many lines there are up to there, and what stands in the way behind them.
#[derive(Clone, Copy)]
struct Walk<'t> {
    lines: usize,
    obstacle: Option<Obstacle<'t>>,
}

// The first k lines of a text, in silence.
fn walk_lines(text: &[u8], k: usize) -> Walk<'_>
    ensures lines_in_bounds { result.lines ≤ length text.now }
    ensures obstacle_in_bounds { IfSome result.obstacle (λ o. obstacle_size o ≤ length text.now) }
{
    let mut sitting = waiting();
    let mut rest = text;
    for lines in 0..k {
        let size = newline_in(rest).unwrap_or(rest.len());
        let line = &rest[..size];
        if size >= CHUNK {
            return walked(lines, Obstacle::Long);
        }
        if size == rest.len() {
            return walked(lines, Obstacle::Fewer(line));
        }
        let after = pass(sitting, line);
        if is_ended(after) {
            return walked(lines, Obstacle::Ends(sitting, line));
        }
        sitting = after;
        rest = &rest[size + 1..];
    }
    Walk {
        lines: k,
        obstacle: None,
    }
}

fn walked<'t>(lines: usize, obstacle: Obstacle<'t>) -> Walk<'t>
    ensures { (result.lines ≡ lines) × (result.obstacle ≡ Some obstacle.entry) }
{
    Walk {
        lines,
        obstacle: Some(obstacle),
    }
}

// Says what is in the way behind the first lines of a journal, of which one is audited. Bytes after
// the last newline are no line, which is said where they may be meant.
fn say_obstacle(
    out: &impl Print,
    walk: Walk<'_>,
    obstacle: Obstacle<'_>,
    line: usize,
    source: Source<'_>,
) {
    let next = (walk.lines as u64).saturating_add(1);
    match obstacle {
        Obstacle::Fewer(rest) => {
            if !rest.is_empty() {
                say_cut(next);
            }
            say_none(out, line);
        }
        Obstacle::Ends(sitting, ending) => say_heard(out, sitting, ending, next, source),
        Obstacle::Long => {
            let mut said = [0u8; SPOKEN];
            print(out, long_text(next, &mut said));
        }
    }
}

// Of what is in the way the first is said, by lines: a call too many, or a line that ends the
// journal, which is not gathered.
fn audit_into(
    out: &impl Print,
    text: &[u8],
    line: usize,
    source: Source<'_>,
    marks: &mut [u64; CALLS],
    numbers: &mut [usize; CALLS],
    starts: &mut [usize; CALLS],
) {
    let walk = walk_lines(text, line);
    let gathered = gather(
        text,
        walk.lines,
        source.lent,
        source.a,
        source.b,
        marks,
        numbers,
        starts,
    );
    if gathered.count >= CALLS {
        say_many(out);
        return;
    }
    if let Some(obstacle) = walk.obstacle {
        say_obstacle(out, walk, obstacle, line, source);
        return;
    }
    let audit = Audited {
        text,
        line,
        source,
        gathered,
        marks,
        numbers,
        starts,
    };
    audit_line(out, &audit);
}

fn audit_text(out: &impl Print, text: &[u8], line: usize, source: Source<'_>) {
    if line == 0 {
        say_none(out, line);
        return;
    }
    let mut marks = [0u64; CALLS];
    let mut numbers = [0usize; CALLS];
    let mut starts = [0usize; CALLS];
    audit_into(
        out,
        text,
        line,
        source,
        &mut marks,
        &mut numbers,
        &mut starts,
    );
}

// ---- the journal and the arguments

// A journal in a buffer; none where it is not read to its end, which is said.
fn read_journal<'a>(
    input: &mut impl Read,
    out: &impl Print,
    name: &[u8],
    journal: &'a mut [u8; TEXT],
) -> Option<&'a [u8]> {
    let n = read_whole(input, name, journal, || say_long_text(out))?;
    Some(&journal[..n])
}

fn audit_over(
    input: &mut impl Read,
    out: &impl Print,
    name: &[u8],
    line: usize,
    source: Source<'_>,
) {
    let mut journal = [0u8; TEXT];
    if let Some(text) = read_journal(input, out, name, &mut journal) {
        audit_text(out, text, line, source);
    }
}

fn audit_named(rt: &(impl Files + Input + Print), name: &[u8], line: usize, source: Source<'_>) {
    if is_dash(name) {
        audit_over(&mut rt.reader(), rt, b"standard input", line, source);
    } else if let Some(mut file) = opened(rt, name) {
        audit_over(&mut file, rt, name, line, source);
    }
}

fn audit_from(rt: &(impl Files + Env + Input + Print), line: usize, source: Source<'_>) {
    let mut name = [0u8; NAME];
    if let Some(name) = argument(rt, 2, &mut name) {
        audit_named(rt, name, line, source);
    }
}

// The line that a word asks for, where that is a whole number.
fn line_of(word: &[u8]) -> Option<usize> {
    match number_in(word) {
        Some(d) if !d.negative && d.places == 0 => Some(d.digits as usize),
        _ => None,
    }
}

// The line that argument i asks for.
fn asked_in(env: &impl Env, i: usize) -> Option<usize> {
    let mut word = [0u8; NAME];
    let n = arg(env, i, &mut word);
    line_of(&word[..n])
}

// Audits the journal that argument 2 names at the line of the last argument, over the year file of
// argument 3, or over the record and the month file of arguments 3 and 4.
pub fn audit(rt: &(impl Files + Env + Input + Print), pair: bool) {
    let Some(line) = asked_in(rt, if pair { 5 } else { 4 }) else {
        usage();
        return;
    };
    let mut files = [0u8; YEAR_MOST];
    if let Some(source) = load(rt, pair, &mut files) {
        audit_from(rt, line, source);
    }
}
