// The words of a file, little-endian: as they are, and as the numbers of tables.
ghost use Rattle.std.specs.Prelude.{◌≡◌, ℕ, ◌+◌, ◌*◌, ◌<◌, ◌≤◌, T, length, slice_index};
ghost use Rattle.std.specs.Float.Ieee.Scale.{finite};
ghost use Rattle.base.specs.Fill.{tabulate};
ghost use Rattle.base.specs.Words.{word_at, integer_at, float_at, table_word_at, FiniteRun};

use crate::number;

// A byte, or 0 where it is not there.
fn byte(s: &[u8], at: usize) -> u8
    ensures { result ≡ slice_index s.now at }
{
    s.get(at).copied().unwrap_or(0)
}

// The word of four bytes that are there.
pub(crate) fn whole_word(s: &[u8], at: usize) -> u32
    requires { at + 4 ≤ length s.now }
    ensures { result ≡ word_at s.now at }
{
    u32::from_le_bytes([s[at], s[at + 1], s[at + 2], s[at + 3]])
}

// The word of four bytes of which some are not there.
fn short_word(s: &[u8], at: usize) -> u32
    ensures { result ≡ word_at s.now at }
{
    if at < s.len() {
        u32::from_le_bytes([
            byte(s, at),
            byte(s, at + 1),
            byte(s, at + 2),
            byte(s, at + 3),
        ])
    } else {
        0
    }
}

// The little-endian word at `at`; a byte that is not there counts as 0.
pub fn word(s: &[u8], at: usize) -> u32
    ensures { result ≡ word_at s.now at }
{
    if s.len() >= 4 && at <= s.len() - 4 {
        whole_word(s, at)
    } else {
        short_word(s, at)
    }
}

// The word at `at` as a signed number; a byte that is not there counts as 0.
pub fn integer(s: &[u8], at: usize) -> i32
    ensures { result ≡ integer_at s.now at }
{
    number::signed(word(s, at))
}

// The word at `at` as an `f32`, of words that are no table's: a NaN's pattern gives a NaN, and a
// byte that is not there counts as 0.
pub fn float(s: &[u8], at: usize) -> f32
    ensures { result ≡ float_at s.now at }
{
    number::float32(word(s, at))
}

// The word at `at` as a table's, where every number must be finite: none where it is a NaN's or an
// infinity's pattern. A byte that is not there counts as 0.
pub fn table_word(s: &[u8], at: usize) -> Option<f32>
    ensures { result ≡ table_word_at s.now at }
{
    let x = float(s, at);
    x.is_finite().then_some(x)
}

// The word of a table in which all words were found finite.
pub(crate) fn finite_word(s: &[u8], at: usize) -> f32
    requires { (at + 4 ≤ length s.now) × T (finite (float_at s.now at)) }
    ensures { result ≡ float_at s.now at }
{
    f32::from_bits(whole_word(s, at))
}

// The words from `at` on into a lent array, all of it.
pub(crate) fn read_words(s: &[u8], at: usize, out: &mut [u32])
    requires { at + 4 * length out.old ≤ length s.now }
    ensures { out.new ≡ tabulate
        (λ i. word_at s.now (at + i * 4))
        (length out.old) }
{
    for (i, w) in out.iter_mut().enumerate() {
        *w = whole_word(s, at + i * 4);
    }
}

// The same of the numbers of a table in which all words were found finite.
pub(crate) fn read_floats(s: &[u8], at: usize, out: &mut [f32])
    requires { (at + 4 * length out.old ≤ length s.now) × FiniteRun s.now at (length out.old) }
    ensures { out.new ≡ tabulate
        (λ i. float_at s.now (at + 4 * i))
        (length out.old) }
{
    // A loop of its own: one for both kinds of words would take a reader that states a contract.
    for (i, x) in out.iter_mut().enumerate() {
        *x = finite_word(s, at + 4 * i);
    }
}
