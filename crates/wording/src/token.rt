// The words of a line, each as what it is: a word that calls are written with, a number, or
// neither.
ghost use Rattle.std.specs.Prelude.{◌≡◌, ◌≤◌, [], length, take};
ghost use Rattle.wording.specs.Token.{name_of, word_named, is_blank, uncommented, words_from, token_of, tokens_of, token_at, first_tokens};
ghost use Rattle.wording.specs.Token.{ascii};

use crate::number::{Decimal, number_in};

// The words that calls are written with.
#[derive(Clone, Copy, PartialEq, Eq)]
pub enum Word {
    Open,
    Month,
    Sunspot,
    Hour,
    From,
    To,
    Long,
    Factors,
    Pole,
    Model,
    Ccir,
    Ursi,
    Begin,
    Path,
    Commit,
    Cancel,
    Show,
    Take,
    Back,
    // Any other, by a number. No line has one: it is said as `another` where it should have stood.
    Another(u32),
}

// Those that a line can have.
const ALL: [Word; 19] = [
    Word::Open,
    Word::Month,
    Word::Sunspot,
    Word::Hour,
    Word::From,
    Word::To,
    Word::Long,
    Word::Factors,
    Word::Pole,
    Word::Model,
    Word::Ccir,
    Word::Ursi,
    Word::Begin,
    Word::Path,
    Word::Commit,
    Word::Cancel,
    Word::Show,
    Word::Take,
    Word::Back,
];

impl Word {
    // Its letters.
    pub fn name(self) -> &'static [u8]
        ensures { result.now ≡ ascii (name_of self) }
    {
        match self {
            Word::Open => b"open",
            Word::Month => b"month",
            Word::Sunspot => b"sunspot",
            Word::Hour => b"hour",
            Word::From => b"from",
            Word::To => b"to",
            Word::Long => b"long",
            Word::Factors => b"factors",
            Word::Pole => b"pole",
            Word::Model => b"model",
            Word::Ccir => b"ccir",
            Word::Ursi => b"ursi",
            Word::Begin => b"begin",
            Word::Path => b"path",
            Word::Commit => b"commit",
            Word::Cancel => b"cancel",
            Word::Show => b"show",
            Word::Take => b"take",
            Word::Back => b"back",
            Word::Another(_) => b"another",
        }
    }
}

#[derive(Clone, Copy)]
pub enum Token {
    // The line has no more words.
    End,
    // One of the words above.
    Word(Word),
    Number(Decimal),
    Other,
}

// The longest call, an open with all that it can say, has 24 words; the 25th tells that there are
// more.
pub const WORDS: usize = 25;

// The first words of a line, `End` behind the last: no Vec, since what allocates can fail and
// `tokens_in` cannot.
#[derive(Clone, Copy)]
pub struct Tokens(pub [Token; WORDS]);

// The word that has these letters, where one has.
fn word_in(letters: &[u8]) -> Option<Word>
    ensures { result ≡ word_named letters.now }
{
    // Each begins with a small letter: no number is sought among them.
    if *letters.first()? < b'a' {
        return None;
    }
    ALL.iter().find(|word| word.name() == letters).copied()
}

// What a word is.
pub fn token_in(word: &[u8]) -> Token
    ensures { result ≡ token_of word.now }
{
    if let Some(name) = word_in(word) {
        return Token::Word(name);
    }
    match number_in(word) {
        Some(number) => Token::Number(number),
        None => Token::Other,
    }
}

fn is_blank(c: u8) -> bool
    ensures { result ≡ is_blank c }
{
    matches!(c, b' ' | b'\t' | b'\r')
}

// Where a line's comment begins, or the line ends.
fn comment_at(line: &[u8]) -> usize
    ensures within { result ≤ length line.now }
    ensures before { take result line.now ≡ uncommented line.now }
{
    line.iter().position(|c| *c == b'#').unwrap_or(line.len())
}

// The words of a line that has no comment; those that there is no place for are not read.
fn words_in(line: &[u8]) -> Tokens
    ensures { result ≡ first_tokens (words_from [] line.now) }
{
    let words = line.split(|c| is_blank(*c)).filter(|word| !word.is_empty());
    let mut tokens = [Token::End; WORDS];
    for (n, word) in words.take(WORDS).enumerate() {
        tokens[n] = token_in(word);
    }
    Tokens(tokens)
}

// The words of a line, each as what it is.
pub fn tokens_in(line: &[u8]) -> Tokens
    ensures { result ≡ tokens_of line.now }
{
    words_in(&line[..comment_at(line)])
}

impl Tokens {
    // The word at place k, from 0 on.
    pub(crate) fn at(&self, k: usize) -> Token
        ensures { result ≡ token_at self.now k }
    {
        self.0.get(k).copied().unwrap_or(Token::End)
    }
}

// The word at place k, from 0 on.
pub fn token_at(t: Tokens, k: usize) -> Token
    ensures { result ≡ token_at t k }
{
    // The method `at` as a function: other crates call it, and docs/CONTRACTS.md names it.
    t.at(k)
}
