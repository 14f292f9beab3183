// The lines of an audit's page, from what is gathered of a journal: where each field comes from,
// what became of each draft that is not in the sheet, the lines of the shorter journal, and the
// sheet.
ghost use Rattle.std.specs.Prelude.{◌≡◌, ◌+◌, ◌<◌, length, take};
ghost use Rattle.io.specs.Counts.{IsPrefixLen};
ghost use Rattle.worksheet.specs.Showing.{lent_as};
ghost use Rattle.auditing.specs.Marks.{is_done, is_showing};
ghost use Rattle.auditing.specs.Accounts.{number_at, desk_at, showing_by, showing_at, field_part, came_by, field_account, balked_by, fate_line, begun_line, draft_account, line_account, sheet_account, handed_page};

use crate::gathering::line_end;
use crate::marks::{Fate, Origin, fate_in, mark_at, origin_in, refused_in};
use listing::account::{ACCOUNT, Became, Came, came_line, draft_line};
use listing::columns::{COLUMNS, columns_text};
use listing::written::{WRITTEN, line_text};
use maps::figures::FIGURES;
use maps::inputs::Inputs;
use wording::line::line_in;
use worksheet::desks::Worksheet;
use worksheet::journal::{Answer, Call, make};
use worksheet::showing::Lent;

// What stands on the line that an audit is of.
#[derive(Clone, Copy)]
pub enum Showing {
    // A showing of the worksheet.
    Shown,
    // One that was refused.
    Refused,
    // Anything else.
    Other,
}

// The part of the inputs that field k is of; 0 where k is not 1 to 15.
fn field_part(k: u32) -> u32
    ensures { result ≡ field_part k }
{
    match k {
        1..=3 => k,
        4..=8 => 4,
        9..=12 => 5,
        13 | 14 => 6,
        15 => 7,
        _ => 0,
    }
}

pub(crate) fn number_at(numbers: &[usize], p: usize) -> usize
    ensures { result ≡ number_at numbers.now p }
{
    numbers.get(p).copied().unwrap_or(0)
}

fn desk_at(marks: &[u64], p: usize) -> u32
    ensures { result ≡ desk_at marks.now p }
{
    (mark_at(marks, p) / 32 % 0x1_0000_0000) as u32
}

// Whether a call is a begin that was accepted.
fn is_begin(mark: u64) -> bool
    ensures { result ≡ is_done 8 mark }
{
    mark % 16 == 8 && mark / 16 % 2 == 1
}

// Whether a call shows the worksheet, whose desk is 0.
fn is_showing(mark: u64) -> bool
    ensures { result ≡ is_showing mark }
{
    mark % 16 == 12 && mark / 32 == 0
}

fn showing_by(mark: u64) -> Showing
    ensures { result ≡ showing_by mark }
{
    if !is_showing(mark) {
        Showing::Other
    } else if mark / 16 % 2 == 1 {
        Showing::Shown
    } else {
        Showing::Refused
    }
}

// Whether the last of the `count` calls that were gathered stands on this line and shows the
// worksheet.
pub fn showing_at(marks: &[u64], numbers: &[usize], count: usize, line: usize) -> Showing
    ensures { result ≡ showing_at marks.now numbers.now count line }
{
    if count == 0 || number_at(numbers, count - 1) != line {
        return Showing::Other;
    }
    showing_by(mark_at(marks, count - 1))
}

// An origin with the numbers of lines for places.
fn came_by(opened: usize, marks: &[u64], numbers: &[usize], origin: Origin) -> Came
    ensures { result ≡ came_by opened marks.now numbers.now origin }
{
    match origin {
        Origin::Opened => Came::Opened(opened as u64),
        Origin::Set(p, s) => Came::Set(
            desk_at(marks, p),
            number_at(numbers, p) as u64,
            number_at(numbers, s) as u64,
        ),
    }
}

// Writes the line of field k of the inputs i with where it comes from, by the first `count` calls
// that were gathered, and gives its length in bytes; nothing where k is not 1 to 15.
pub fn field_account(
    i: Inputs,
    opened: usize,
    marks: &[u64],
    numbers: &[usize],
    count: usize,
    k: u32,
    out: &mut [u8; ACCOUNT],
) -> usize
    ensures text { take result out.new ≡ field_account i opened marks.now numbers.now count k }
    ensures count { IsPrefixLen result out.new }
{
    let origin = origin_in(marks, field_part(k), count);
    let came = came_by(opened, marks, numbers, origin);
    came_line(i, k, came, out)
}

fn balked_by(numbers: &[usize], refused: Option<usize>) -> Option<u64>
    ensures { result ≡ balked_by numbers.now refused }
{
    refused.map(|p| number_at(numbers, p) as u64)
}

// Writes the line of a draft by its fate; nothing where it stands.
fn fate_line(
    numbers: &[usize],
    n: u32,
    begun: usize,
    balked: Option<u64>,
    fate: Fate,
    out: &mut [u8; ACCOUNT],
) -> usize
    ensures text { take result out.new ≡ fate_line numbers.now n begun balked fate }
    ensures count { IsPrefixLen result out.new }
{
    let begun = begun as u64;
    match fate {
        Fate::Stands(_) => 0,
        Fate::TakenBack(s, t) => {
            let s = number_at(numbers, s) as u64;
            let t = number_at(numbers, t) as u64;
            draft_line(n, begun, balked, Became::TakenBack(s, t), out)
        }
        Fate::Cancelled(s) => {
            let s = number_at(numbers, s) as u64;
            draft_line(n, begun, balked, Became::Cancelled(s), out)
        }
        Fate::Never => draft_line(n, begun, balked, Became::Never, out),
    }
}

// Writes the line of desk n's draft that the call at place p begins; nothing where it stands.
fn begun_line(
    marks: &[u64],
    numbers: &[usize],
    count: usize,
    n: u32,
    p: usize,
    out: &mut [u8; ACCOUNT],
) -> usize
    requires { p < length marks.now }
    ensures text { take result out.new ≡ begun_line marks.now numbers.now count n p }
    ensures count { IsPrefixLen result out.new }
{
    let refused = refused_in(marks, n, p + 1, count);
    let balked = balked_by(numbers, refused);
    let fate = fate_in(marks, n, p + 1, count);
    let begun = number_at(numbers, p);
    fate_line(numbers, n, begun, balked, fate, out)
}

// Writes the line of the draft that the call at place p begins, by the first `count` calls that
// were gathered, and gives its length in bytes; nothing where it begins none, or the draft stands.
pub fn draft_account(
    marks: &[u64],
    numbers: &[usize],
    count: usize,
    p: usize,
    out: &mut [u8; ACCOUNT],
) -> usize
    ensures text { take result out.new ≡ draft_account marks.now numbers.now count p }
    ensures count { IsPrefixLen result out.new }
{
    if is_begin(mark_at(marks, p)) {
        begun_line(marks, numbers, count, desk_at(marks, p), p, out)
    } else {
        0
    }
}

// Writes the line that begins at the byte `start` of a journal's text anew, as it is kept, and
// gives its length in bytes; nothing where it is no call. Past the text there is an empty line.
pub fn line_account(text: &[u8], start: usize, out: &mut [u8; WRITTEN]) -> usize
    ensures text { take result out.new ≡ line_account text.now start }
    ensures count { IsPrefixLen result out.new }
{
    if start > text.len() {
        return 0;
    }
    let end = line_end(text, start);
    line_text(line_in(&text[start..end]), out)
}

// Writes the page of an answer; nothing where it is no showing, or refused.
fn handed_page(
    i: Inputs,
    answer: Answer,
    figures: &[f32; FIGURES],
    out: &mut [u8; COLUMNS],
) -> usize
    ensures text { take result out.new ≡ handed_page i answer figures.now }
    ensures count { IsPrefixLen result out.new }
{
    match answer {
        Answer::Told(_) => 0,
        Answer::Shown(s) => match s {
            Ok(count) => columns_text(i, count, figures, out),
            Err(_) => 0,
        },
    }
}

// Writes the sheet that a showing of the worksheet w gives over what is lent, and gives its length
// in bytes; nothing where the showing is refused.
pub fn sheet_account(w: Worksheet, lent: Lent, a: &[u8], b: &[u8], out: &mut [u8; COLUMNS]) -> usize
    ensures text { let source = lent_as lent a.now b.now in
        take result out.new ≡ sheet_account source w }
    ensures count { IsPrefixLen result out.new }
{
    let mut figures = [0.0f32; FIGURES];
    let next = make(w, Call::Show(0), lent, a, b, &mut figures);
    handed_page(w.inputs, next.answer, &figures, out)
}
