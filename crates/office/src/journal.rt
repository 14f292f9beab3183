// A journal read line by line in a buffer of fixed size, so that a long one needs no more than a
// short one. A line ends with a newline: bytes after the last one were cut short, and are no line.
ghost use Rattle.std.specs.Prelude.{◌≡◌, ◌+◌, ◌-◌, ◌<◌, ◌≤◌, length};

use listing::spoken::SPOKEN;
use sitting::{Sitting, waiting};
use std::io::Read;
use system::{got, newline_in, say, written};

// A line of a journal has fewer bytes than this.
pub(crate) const CHUNK: usize = 65536;

// More turns of reading or answering than any run takes.
const TURNS: u64 = 0x100_0000_0000;

// Why a run of a journal goes no further.
#[derive(Clone, Copy)]
pub(crate) enum End {
    // The input has ended; what is left in the buffer was cut short.
    Input,
    // What is left in the buffer is a line that ends the journal.
    Line,
    // A line does not fit the buffer.
    Long,
    // Not everything could be read or written, which was said.
    Failed,
}

// What the lines so far left: the sitting, how many lines there are and their bytes, and which part
// of the buffer comes next.
#[derive(Clone, Copy)]
pub(crate) struct Ran {
    pub sitting: Sitting,
    pub lines: u64,
    pub bytes: u64,
    pub from: usize,
    pub to: usize,
    ghost in_order: { from ≤ to },
    ghost in_buffer: { to ≤ 65536 },
}

impl Ran {
    // The number of the line that comes next.
    pub(crate) fn number(&self) -> u64
        ensures next { self.now.lines < 1099511627776 → result ≡ self.now.lines + 1 }
        ensures most { result ≤ self.now.lines + 1 }
    {
        self.lines.saturating_add(1)
    }

    // What comes next in the buffer.
    pub(crate) fn left<'b>(&self, buffer: &'b [u8; CHUNK]) -> &'b [u8]
        ensures { length result.now ≡ self.now.to - self.now.from }
    {
        &buffer[self.from..self.to]
    }
}

pub(crate) fn is_ended(s: Sitting) -> bool {
    matches!(s, Sitting::Ended(_))
}

// The next line, of `size` bytes, is answered, unless it ends the journal.
fn line_turn<F>(ran: &mut Ran, buffer: &[u8; CHUNK], size: usize, answer: &F) -> Result<(), End>
where
    F: Fn(Sitting, &[u8], u64) -> Option<Sitting>,
    requires callable { F.IsAlwaysCallable answer.now }
    requires in_line { ran.old.from + size < ran.old.to }
    ensures { (ran.new.lines ≤ ran.old.lines + 1) × (ran.new.bytes ≤ ran.old.bytes + 65536) }
{
    let end = ran.from + size;
    let line = &buffer[ran.from..end];
    let Some(after) = answer(ran.sitting, line, ran.number()) else {
        return Err(End::Failed);
    };
    if is_ended(after) {
        ran.to = end;
        return Err(End::Line);
    }
    ran.sitting = after;
    ran.lines = ran.number();
    ran.bytes = ran.bytes.saturating_add(size as u64 + 1);
    ran.from = end + 1;
    Ok(())
}

// No line is whole: what there is of the next one moves to the start of the buffer, and more is
// read behind it.
fn fill_turn(
    ran: &mut Ran,
    input: &mut impl Read,
    name: &[u8],
    buffer: &mut [u8; CHUNK],
) -> Result<(), End>
    ensures { (ran.new.lines ≡ ran.old.lines) × (ran.new.bytes ≡ ran.old.bytes) }
{
    let n = ran.to - ran.from;
    buffer.copy_within(ran.from..ran.to, 0);
    ran.from = 0;
    ran.to = n;
    if n == CHUNK {
        return Err(End::Long);
    }
    match got(name, input.read(&mut buffer[n..])) {
        Some(0) => Err(End::Input),
        Some(size) => {
            ran.to = n + size;
            Ok(())
        }
        None => Err(End::Failed),
    }
}

fn turn<F>(
    ran: &mut Ran,
    input: &mut impl Read,
    name: &[u8],
    buffer: &mut [u8; CHUNK],
    answer: &F,
) -> Result<(), End>
where
    F: Fn(Sitting, &[u8], u64) -> Option<Sitting>,
    requires { F.IsAlwaysCallable answer.now }
    ensures { (ran.new.lines ≤ ran.old.lines + 1) × (ran.new.bytes ≤ ran.old.bytes + 65536) }
{
    match newline_in(ran.left(buffer)) {
        Some(size) => line_turn(ran, buffer, size, answer),
        None => fill_turn(ran, input, name, buffer),
    }
}

// Line by line, up to one that ends the journal. `answer` is given the sitting before a line, the
// line and its number, and gives the sitting after it, or nothing where it fails. Nothing says that
// the input ends, so the turns are counted.
pub(crate) fn hear_all<F>(
    input: &mut impl Read,
    name: &[u8],
    buffer: &mut [u8; CHUNK],
    answer: F,
) -> (Ran, End)
where
    F: Fn(Sitting, &[u8], u64) -> Option<Sitting>,
    requires { F.IsAlwaysCallable answer }
    ensures { (result.0.lines ≤ 1099511627776) × (result.0.bytes ≤ 72057594037927936) }
{
    let mut ran = Ran {
        sitting: waiting(),
        lines: 0,
        bytes: 0,
        from: 0,
        to: 0,
    };
    for _ in 0..TURNS {
        if let Err(end) = turn(&mut ran, input, name, buffer, &answer) {
            return (ran, end);
        }
    }
    (ran, End::Failed)
}

// What is said of a line that is longer than the buffer.
pub(crate) fn long_text<'a>(number: u64, text: &'a mut [u8; SPOKEN]) -> &'a [u8]
    ensures { length result.now ≤ length text.old }
{
    let said = format_args!("line {number}: no call: a line has fewer than 65536 bytes\n");
    let n = written(said, text);
    &text[..n]
}

// Says that the journal's last line was cut short.
pub(crate) fn say_cut(number: u64) {
    say(format_args!(
        "line {number} was cut short, by a stop or a full disk: it has no end, and is no call"
    ));
}
