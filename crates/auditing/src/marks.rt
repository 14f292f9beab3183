// A mark for each call of a journal, and what the marks tell: the origin of each part of the
// inputs, the fate of each draft and the calls of the shorter list, all by their places. A mark is
// a number, and marks, numbers of lines and starts are three lent slices: the clauses of `gather`,
// `kept_in` and `page_part` and the results on audits speak of them so.
ghost use Rattle.std.specs.Prelude.{◌≡◌, List, false, cond, ◌||◌, suc, min, ◌<◌, ◌-◌, length, take, Float, Some, None};
ghost use Rattle.worksheet.specs.Calls.{called};
ghost use Rattle.auditing.specs.Provenance.{edit_part};
ghost use Rattle.auditing.specs.Marks.{sort_of, desk_of, mark_with, is_done, is_done_by, is_own_mark, mark_at, change_before, origin_before, settled_from, fate_from, is_refused_commit, refused_from, own_places, kept_at, kept_places, back_before, brought_by, pile, given, all_given, is_alone, is_draft_mark, draft_places};
ghost use Rattle.auditing.specs.declared.marks.Origin.TheVariants.{Opened};

use worksheet::inputs::Edit;
use worksheet::journal::Call;

// Where a part of the inputs comes from. No Option of two places: the open is an origin too, and
// the definitions and results on origins name both.
#[derive(Clone, Copy)]
pub enum Origin {
    Opened,
    // The place of the change, and of the commit that settled it.
    Set(usize, usize),
}

// What became of a draft; a place is how many calls stand before the call.
#[derive(Clone, Copy)]
pub enum Fate {
    // Committed at this place, and in force.
    Stands(usize),
    // Committed at the first place, taken back at the second.
    TakenBack(usize, usize),
    Cancelled(usize),
    // Open at the end.
    Never,
}

fn part_of(e: Edit) -> u64
    ensures { result ≡ edit_part e }
{
    match e {
        Edit::Month(_) => 1,
        Edit::Sunspot(_) => 2,
        Edit::Hour(_) => 3,
        Edit::Path(_) => 4,
        Edit::Psc(_) => 5,
        Edit::Pole(_) => 6,
        Edit::Model(_) => 7,
    }
}

fn mark_with(sort: u64, good: bool, desk: u32) -> u64
    requires { sort < 16 }
    ensures { result ≡ mark_with sort good desk }
{
    if good {
        sort + 16 + 32 * (desk as u64)
    } else {
        sort + 32 * (desk as u64)
    }
}

// The mark of a call that was accepted or refused; the buffer that it lent does not count.
pub fn mark_of(call: Call, good: bool) -> u64
    ensures { (lent : List Float) →
        result ≡ mark_with (sort_of (called call lent)) good (desk_of (called call lent)) }
{
    match call {
        Call::Begin(desk) => mark_with(8, good, desk),
        Call::Change(desk, e) => mark_with(part_of(e), good, desk),
        Call::Commit(desk) => mark_with(9, good, desk),
        Call::Cancel(desk) => mark_with(10, good, desk),
        Call::TakeBack => mark_with(11, good, 0),
        Call::Show(desk) => mark_with(12, good, desk),
    }
}

// Past the end there is no call, and no test passes.
pub(crate) fn mark_at(marks: &[u64], k: usize) -> u64
    ensures { result ≡ mark_at marks.now k }
{
    marks.get(k).copied().unwrap_or(0)
}

fn is_done(sort: u64, mark: u64) -> bool
    ensures { result ≡ is_done sort mark }
{
    mark % 16 == sort && mark / 16 % 2 == 1
}

fn is_done_by(sort: u64, desk: u64, mark: u64) -> bool
    ensures { result ≡ is_done_by sort desk mark }
{
    is_done(sort, mark) && mark / 32 == desk
}

fn is_own(desk: u64, mark: u64) -> bool
    ensures { result ≡ is_own_mark desk mark }
{
    mark / 32 == desk && (mark % 16 == 12 || (mark % 16 < 8 && mark / 16 % 2 == 1))
}

// The last accepted change of a part in the desk's draft before place j, which a commit at the
// place `settled` settled; Opened where its begin, or the start, is met first.
fn change_in(marks: &[u64], part: u64, desk: u64, settled: usize, j: usize) -> Origin
    ensures { result ≡ change_before marks.now part desk settled Opened j }
{
    for k in (0..j).rev() {
        let mark = mark_at(marks, k);
        if is_done_by(8, desk, mark) {
            return Origin::Opened;
        }
        if is_done_by(part, desk, mark) {
            return Origin::Set(k, settled);
        }
    }
    Origin::Opened
}

// What the commit at place j brings of its draft, if it is one and stands.
fn brought_by(marks: &[u64], part: u64, back: bool, j: usize) -> Origin
    ensures { result ≡ brought_by marks.now part back j }
{
    let mark = mark_at(marks, j);
    if !back && is_done(9, mark) {
        change_in(marks, part, mark / 32, j, j)
    } else {
        Origin::Opened
    }
}

// Whether the next accepted commit or take-back is a take-back, for the calls before this one.
fn back_before(back: bool, mark: u64) -> bool
    ensures { result ≡ back_before back mark }
{
    is_done(11, mark) || (!is_done(9, mark) && back)
}

// Where a part of the inputs comes from, by the calls before place j.
pub fn origin_in(marks: &[u64], part: u32, j: usize) -> Origin
    ensures { result ≡ origin_before marks.now part false j }
{
    let sort = part as u64;
    let mut back = false;
    for k in (0..j).rev() {
        match brought_by(marks, sort, back, k) {
            Origin::Set(place, settled) => return Origin::Set(place, settled),
            Origin::Opened => back = back_before(back, mark_at(marks, k)),
        }
    }
    Origin::Opened
}

// Whether a commit at the place `settled` was taken back, by the calls from `at` to `count`.
fn settled_in(marks: &[u64], settled: usize, at: usize, count: usize) -> Fate
    ensures { result ≡ settled_from marks.now settled at (count - at) }
{
    for k in at..count {
        let mark = mark_at(marks, k);
        if is_done(9, mark) {
            return Fate::Stands(settled);
        }
        if is_done(11, mark) {
            return Fate::TakenBack(settled, k);
        }
    }
    Fate::Stands(settled)
}

// What became of desk n's draft, by the calls from `at` to `count`.
pub fn fate_in(marks: &[u64], n: u32, at: usize, count: usize) -> Fate
    ensures { result ≡ fate_from marks.now n at (count - at) }
{
    let desk = n as u64;
    for k in at..count {
        let mark = mark_at(marks, k);
        if is_done_by(10, desk, mark) {
            return Fate::Cancelled(k);
        }
        if is_done_by(9, desk, mark) {
            return settled_in(marks, k, k + 1, count);
        }
    }
    Fate::Never
}

// Whether an accepted cancel or commit ends the desk's draft.
fn is_end(desk: u64, mark: u64) -> bool
    ensures { result ≡ (is_done_by 10 desk mark || is_done_by 9 desk mark) }
{
    is_done_by(10, desk, mark) || is_done_by(9, desk, mark)
}

fn is_refused_commit(desk: u64, mark: u64) -> bool
    ensures { result ≡ is_refused_commit desk mark }
{
    mark % 16 == 9 && mark / 16 % 2 != 1 && mark / 32 == desk
}

// The call at place k where it is a refused commit, else the last one before it.
fn last_refused(last: Option<usize>, desk: u64, mark: u64, k: usize) -> Option<usize>
    ensures { result ≡ cond (is_refused_commit desk mark) (Some k) last }
{
    if is_refused_commit(desk, mark) {
        Some(k)
    } else {
        last
    }
}

// Where the commit of desk n's draft was last refused, by the calls from `at` to `count`.
pub fn refused_in(marks: &[u64], n: u32, at: usize, count: usize) -> Option<usize>
    ensures { result ≡ refused_from marks.now n None at (count - at) }
{
    let desk = n as u64;
    let mut last = None;
    for k in at..count {
        let mark = mark_at(marks, k);
        if is_end(desk, mark) {
            return last;
        }
        last = last_refused(last, desk, mark, k);
    }
    last
}

// Writes a place behind the others if there is room, and counts it; past the buffer's end all
// places count as one.
fn push(out: &mut [usize], size: usize, place: usize) -> usize
    ensures { pile result out.new ≡ given place (pile size out.old) }
{
    if size < out.len() {
        out[size] = place;
        size + 1
    } else {
        out.len() + 1
    }
}

fn push_if(wanted: bool, out: &mut [usize], size: usize, place: usize) -> usize
    ensures { let p = pile size out.old in
        pile result out.new ≡ cond wanted (given place p) p }
{
    if wanted { push(out, size, place) } else { size }
}

// A begin of the desk's, or what belongs to its draft.
fn is_draft(desk: u64, mark: u64) -> bool
    ensures { result ≡ is_draft_mark desk mark }
{
    is_done_by(8, desk, mark) || is_own(desk, mark)
}

// The place of the desk's last begin before place j, or 0: from there on, whatever is of a draft
// of the desk is of this one.
fn begin_before(marks: &[u64], desk: u64, j: usize) -> usize
    ensures { let ms = marks.now in
        own_places ms desk j ≡ draft_places ms desk result (j - result) }
{
    for k in (0..j).rev() {
        if is_done_by(8, desk, mark_at(marks, k)) {
            return k;
        }
    }
    0
}

// The desk's draft before place j: its begin and what belongs to it, upwards.
fn push_own(marks: &[u64], desk: u64, j: usize, out: &mut [usize], size: usize) -> usize
    ensures { let own = own_places marks.now desk j in
        pile result out.new ≡ all_given own (pile size out.old) }
{
    let mut n = size;
    for k in begin_before(marks, desk, j)..j {
        n = push_if(is_draft(desk, mark_at(marks, k)), out, n, k);
    }
    n
}

// A take-back or a showing of the worksheet, which the shorter list has where it stands.
fn is_alone(mark: u64) -> bool
    ensures { result ≡ is_alone mark }
{
    is_done(11, mark) || (mark % 16 == 12 && mark / 32 == 0)
}

// What the shorter list has for the call at place j.
fn push_kept(marks: &[u64], j: usize, out: &mut [usize], size: usize) -> usize
    ensures { let kept = kept_at marks.now j in
        pile result out.new ≡ all_given kept (pile size out.old) }
{
    let mark = mark_at(marks, j);
    if is_done(9, mark) {
        let n = push_own(marks, mark / 32, j, out, size);
        return push(out, n, j);
    }
    push_if(is_alone(mark), out, size, j)
}

// The places of the shorter list's calls, of `count` calls in all, as many as the buffer holds. The
// result is how many there are, or one more than fit where they do not.
pub fn kept_in(marks: &[u64], count: usize, out: &mut [usize]) -> usize
    ensures size { let kept = kept_places marks.now count in
        result ≡ min (length kept) (suc (length out.old)) }
    ensures places { let kept = kept_places marks.now count in
        let n = min result (length out.old) in
        take n out.new ≡ take n kept }
    ensures room { length out.new ≡ length out.old }
{
    let mut size = 0;
    for j in 0..count {
        size = push_kept(marks, j, out, size);
    }
    size
}
