// The page of an audit, part after part: put one after the other they are what is printed.
ghost use Rattle.std.specs.Prelude.{◌≡◌, true, false, cond, [], suc, ◌<◌, ◌≤◌, leb, length, take};
ghost use Rattle.io.specs.Counts.{IsPrefixLen};
ghost use Rattle.worksheet.specs.Showing.{lent_as};
ghost use Rattle.listing.specs.Account.{none_line};
ghost use Rattle.auditing.specs.Page.{no_drafts, sheet_parts, shorter_parts, drafts_parts, page_size, fields_part, sheet_part, shorter_part, drafts_part, page_part};

use crate::accounts::{draft_account, field_account, line_account, number_at, sheet_account};
use crate::gathering::Gathered;
use listing::account::{ACCOUNT, title_text};
use listing::columns::COLUMNS;
use worksheet::showing::Lent;

// A part's length in bytes, and whether the page ends with it.
#[derive(Clone, Copy)]
pub struct Part {
    pub size: usize,
    pub last: bool,
}

// Puts a line into the part's buffer, and gives its length.
fn laid(piece: &[u8], out: &mut [u8]) -> usize
    requires { length piece.now ≤ length out.old }
    ensures text { take result out.new ≡ piece.now }
    ensures count { IsPrefixLen result out.new }
{
    let n = piece.len();
    out[..n].copy_from_slice(piece);
    n
}

// The title, or field k.
fn fields_part(
    line: usize,
    g: Gathered,
    marks: &[u64],
    numbers: &[usize],
    k: usize,
    out: &mut [u8; COLUMNS],
) -> usize
    requires { k < 16 }
    ensures text { take result out.new ≡ fields_part line g marks.now numbers.now k }
    ensures count { IsPrefixLen result out.new }
{
    if k == 0 {
        return title_text(line as u64, out);
    }
    field_account(
        g.sheet.inputs,
        g.opened,
        marks,
        numbers,
        g.count,
        k as u32,
        out,
    )
}

// Whether no draft has a line.
fn no_drafts(marks: &[u64], numbers: &[usize], count: usize) -> bool
    ensures { result ≡ no_drafts marks.now numbers.now count }
{
    let mut piece = [0u8; ACCOUNT];
    for p in 0..count {
        if draft_account(marks, numbers, count, p, &mut piece) != 0 {
            return false;
        }
    }
    true
}

// What stands in the place of the drafts' lines: nothing where there are any.
fn none_part(marks: &[u64], numbers: &[usize], count: usize, out: &mut [u8; COLUMNS]) -> usize
    ensures text { let none = no_drafts marks.now numbers.now count in
        take result out.new ≡ cond none none_line [] }
    ensures count { IsPrefixLen result out.new }
{
    if no_drafts(marks, numbers, count) {
        return laid(b"none\n", out);
    }
    0
}

// The sheet with its heading.
fn sheet_part(
    g: Gathered,
    lent: Lent,
    a: &[u8],
    b: &[u8],
    k: usize,
    out: &mut [u8; COLUMNS],
) -> Part
    ensures text { let source = lent_as lent a.now b.now in
        take result.size out.new ≡ sheet_part source g k }
    ensures last { result.last ≡ leb sheet_parts (suc k) }
    ensures count { IsPrefixLen result.size out.new }
{
    if k == 0 {
        return more(laid(b"\nthe sheet:\n", out));
    }
    if k == 1 {
        return done(sheet_account(g.sheet, lent, a, b, out));
    }
    done(0)
}

// A part that another follows.
fn more(size: usize) -> Part
    ensures { result ≡ record { size = size; last = false } }
{
    Part { size, last: false }
}

fn done(size: usize) -> Part
    ensures { result ≡ record { size = size; last = true } }
{
    Part { size, last: true }
}

// The shorter journal with its heading, and what follows it.
fn shorter_part(
    text: &[u8],
    g: Gathered,
    starts: &[usize],
    places: &[usize],
    size: usize,
    lent: Lent,
    a: &[u8],
    b: &[u8],
    k: usize,
    out: &mut [u8; COLUMNS],
) -> Part
    ensures text { let source = lent_as lent a.now b.now in
        let s = text.now in
        take result.size out.new ≡ shorter_part source s g starts.now places.now size k }
    ensures last { result.last ≡ leb (shorter_parts size) (suc k) }
    ensures count { IsPrefixLen result.size out.new }
{
    if k == 0 {
        return more(laid(b"\nthe shorter journal, which gives the same sheet:\n", out));
    }
    if k == 1 {
        return more(line_account(text, g.start, out));
    }
    let j = k - 2;
    if j < size {
        let start = number_at(starts, number_at(places, j));
        return more(line_account(text, start, out));
    }
    sheet_part(g, lent, a, b, j - size, out)
}

// The drafts with their heading, and what follows them.
fn drafts_part(
    text: &[u8],
    g: Gathered,
    marks: &[u64],
    numbers: &[usize],
    starts: &[usize],
    places: &[usize],
    size: usize,
    lent: Lent,
    a: &[u8],
    b: &[u8],
    k: usize,
    out: &mut [u8; COLUMNS],
) -> Part
    ensures text { let source = lent_as lent a.now b.now in
        let ms = marks.now in
        let ns = numbers.now in
        let ss = starts.now in
        let ps = places.now in
        take result.size out.new ≡ drafts_part source text.now g ms ns ss ps size k }
    ensures last { result.last ≡ leb (drafts_parts g.count size) (suc k) }
    ensures count { IsPrefixLen result.size out.new }
{
    if k == 0 {
        return more(laid(b"\ndrafts that are not in it:\n", out));
    }
    let count = g.count;
    let j = k - 1;
    if j < count {
        return more(draft_account(marks, numbers, count, j, out));
    }
    let j = j - count;
    if j == 0 {
        return more(none_part(marks, numbers, count, out));
    }
    shorter_part(text, g, starts, places, size, lent, a, b, j - 1, out)
}

// Writes part k of the page of a journal's text, audited at this line: `g` and the three buffers
// hold what was gathered up to it, and the first `size` places those of the shorter list's calls.
// Past the last part there is nothing.
pub fn page_part(
    text: &[u8],
    line: usize,
    g: Gathered,
    marks: &[u64],
    numbers: &[usize],
    starts: &[usize],
    places: &[usize],
    size: usize,
    lent: Lent,
    a: &[u8],
    b: &[u8],
    k: usize,
    out: &mut [u8; COLUMNS],
) -> Part
    ensures text { let source = lent_as lent a.now b.now in
        let ms = marks.now in
        let ns = numbers.now in
        let ss = starts.now in
        let ps = places.now in
        take result.size out.new ≡ page_part source text.now g ms ns ss ps size line k }
    ensures last { result.last ≡ leb (page_size g.count size) (suc k) }
    ensures count { IsPrefixLen result.size out.new }
{
    // Parts go by number, and what they are of one by one: the clauses and `page_part`'s definition
    // name each.
    if k < 16 {
        return more(fields_part(line, g, marks, numbers, k, out));
    }
    drafts_part(
        text,
        g,
        marks,
        numbers,
        starts,
        places,
        size,
        lent,
        a,
        b,
        k - 16,
        out,
    )
}
