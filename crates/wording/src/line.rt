// A line of a journal: nothing, an open, a call, or what is wrong with it. Each form of a call is
// checked word by word from the left, and the first word that does not fit decides.
ghost use Rattle.std.specs.Prelude.{◌≡◌, cond, ◌+◌, ◌≤◌, ◌<◌};
ghost use Rattle.wording.specs.Token.{token_at};
ghost use Rattle.wording.specs.declared.line.Line.TheVariants.{Open, Wrong};
ghost use Rattle.wording.specs.Line.{is_named, is_number, is_whole_decimal, is_whole, is_end, decimal_in, fit_unless, line_if, call_if, word_fit, number_fit, whole_fit, model_fit, end_fit, decimal_at, whole_at, model_at, pair_fit, four_fit, route_fit, is_long_at, route_at, route_end, factors_at, pole_at, head_fit, factors_start, pole_start, model_start, open_end, factors_fit, pole_fit, models_fit, open_fit, opening_factors, opening_pole, opening_model, opening_at, deed_line, number_line, word_line, start_line, line_in, change_fit, change_edit, deed_fit, deed_call, bare_fit, bare_call};

use crate::number::Decimal;
use crate::token::{Token, Tokens, Word, tokens_in};
use crate::written::{
    WrittenCall, WrittenEdit, WrittenFactors, WrittenInputs, WrittenPole, WrittenRoute,
};

// What should have stood where a word does not fit.
#[derive(Clone, Copy)]
pub enum Wanted {
    // `open`, `show`, `take back` or a desk's number.
    Start,
    // What a desk does: `begin`, `sunspot` and the others.
    Deed,
    // This word.
    Word(Word),
    // Digits with sign and point, at most 18 of them.
    Number,
    // A whole number that fits a `u32`.
    Whole,
    // `ccir` or `ursi`.
    Model,
    // No word more.
    Nothing,
}

// The word that does not fit, counted from 1, or the one that is missing.
#[derive(Clone, Copy)]
pub struct Fault {
    pub word: u32,
    pub wanted: Wanted,
}

// What a line is. A wrong one is a kind of line, and no Err: a journal's definitions and results
// take all four alike.
#[derive(Clone, Copy)]
pub enum Line {
    // No word: blank, or a comment alone.
    Blank,
    Open(WrittenInputs),
    Call(WrittenCall),
    Wrong(Fault),
}

// ---- one word

// What stands for a number that is not there.
const NOUGHT: Decimal = Decimal {
    negative: false,
    digits: 0,
    places: 0,
};

impl Decimal {
    // Whether it is a whole number, not below 0, that fits a `u32`.
    fn is_whole(self) -> bool
        ensures { result ≡ is_whole_decimal self }
    {
        !self.negative && self.places == 0 && self.digits < 4294967296
    }
}

impl Token {
    fn is_named(self, word: Word) -> bool
        ensures { result ≡ is_named word self }
    {
        matches!(self, Token::Word(w) if w == word)
    }

    fn is_number(self) -> bool
        ensures { result ≡ is_number self }
    {
        matches!(self, Token::Number(_))
    }

    fn is_whole(self) -> bool
        ensures { result ≡ is_whole self }
    {
        matches!(self, Token::Number(d) if d.is_whole())
    }

    fn is_end(self) -> bool
        ensures { result ≡ is_end self }
    {
        matches!(self, Token::End)
    }

    // The number that it is, 0 where it is none.
    fn decimal(self) -> Decimal
        ensures { result ≡ decimal_in self }
    {
        match self {
            Token::Number(d) => d,
            _ => NOUGHT,
        }
    }
}

// Nothing where the word at place k, the (k + 1)th, fits. Here and below a place is bounded by a
// clause, and not by a type: most are sums, whose bound is proved at each call all the same.
fn fit_unless(good: bool, k: usize, wanted: Wanted) -> Result<(), Fault>
    requires { k < 32 }
    ensures { result ≡ fit_unless good k wanted }
{
    if good {
        return Ok(());
    }
    Err(Fault {
        word: k as u32 + 1,
        wanted,
    })
}

// What an open has where it says nothing else.
const ONE: Decimal = Decimal {
    negative: false,
    digits: 1,
    places: 0,
};

const USUAL_FACTORS: WrittenFactors = WrittenFactors {
    e: ONE,
    f1: ONE,
    f2: ONE,
    es: ONE,
};

const USUAL_POLE: WrittenPole = WrittenPole {
    lat: Decimal {
        negative: false,
        digits: 785,
        places: 1,
    },
    lon: Decimal {
        negative: true,
        digits: 69,
        places: 0,
    },
};

impl Tokens {
    // ---- whether the word at place k fits

    fn has(&self, k: usize, word: Word) -> bool
        ensures { result ≡ is_named word (token_at self.now k) }
    {
        self.at(k).is_named(word)
    }

    fn word_fit(&self, k: usize, word: Word) -> Result<(), Fault>
        requires { k < 32 }
        ensures { result ≡ word_fit self.now k word }
    {
        fit_unless(self.has(k, word), k, Wanted::Word(word))
    }

    fn number_fit(&self, k: usize) -> Result<(), Fault>
        requires { k < 32 }
        ensures { result ≡ number_fit self.now k }
    {
        fit_unless(self.at(k).is_number(), k, Wanted::Number)
    }

    fn whole_fit(&self, k: usize) -> Result<(), Fault>
        requires { k < 32 }
        ensures { result ≡ whole_fit self.now k }
    {
        fit_unless(self.at(k).is_whole(), k, Wanted::Whole)
    }

    #[tactic(auto, unfolding(crate::specs::Line::model_fit))]
    fn model_fit(&self, k: usize) -> Result<(), Fault>
        requires { k < 32 }
        ensures { result ≡ model_fit self.now k }
    {
        if self.has(k, Word::Ccir) {
            return Ok(());
        }
        fit_unless(self.has(k, Word::Ursi), k, Wanted::Model)
    }

    fn end_fit(&self, k: usize) -> Result<(), Fault>
        requires { k < 32 }
        ensures { result ≡ end_fit self.now k }
    {
        fit_unless(self.at(k).is_end(), k, Wanted::Nothing)
    }

    // ---- the numbers at place k

    fn decimal_at(&self, k: usize) -> Decimal
        ensures { result ≡ decimal_at self.now k }
    {
        self.at(k).decimal()
    }

    #[tactic(auto, unfolding(crate::specs::Line::whole_at))]
    fn whole_at(&self, k: usize) -> u32
        ensures { result ≡ whole_at self.now k }
    {
        match self.at(k) {
            Token::Number(d) if d.is_whole() => d.digits as u32,
            _ => 0,
        }
    }

    #[tactic(auto, unfolding(crate::specs::Line::model_at))]
    fn model_at(&self, k: usize) -> u32
        ensures { result ≡ model_at self.now k }
    {
        u32::from(self.has(k, Word::Ursi))
    }

    // ---- the parts of the inputs, from place k on

    #[tactic(auto, unfolding(crate::specs::Line::pair_fit))]
    fn pair_fit(&self, k: usize) -> Result<(), Fault>
        requires { k < 31 }
        ensures { result ≡ pair_fit self.now k }
    {
        self.number_fit(k)?;
        self.number_fit(k + 1)
    }

    #[tactic(auto, unfolding(crate::specs::Line::four_fit))]
    fn four_fit(&self, k: usize) -> Result<(), Fault>
        requires { k < 29 }
        ensures { result ≡ four_fit self.now k }
    {
        self.pair_fit(k)?;
        self.pair_fit(k + 2)
    }

    #[tactic(auto, unfolding(crate::specs::Line::route_fit))]
    fn route_fit(&self, k: usize) -> Result<(), Fault>
        requires { k < 27 }
        ensures { result ≡ route_fit self.now k }
    {
        self.word_fit(k, Word::From)?;
        self.pair_fit(k + 1)?;
        self.word_fit(k + 3, Word::To)?;
        self.pair_fit(k + 4)
    }

    fn is_long_at(&self, k: usize) -> bool
        requires { k < 32 }
        ensures { result ≡ is_long_at self.now k }
    {
        self.has(k + 6, Word::Long)
    }

    #[tactic(auto, unfolding(crate::specs::Line::route_at))]
    fn route_at(&self, k: usize) -> WrittenRoute
        requires { k < 32 }
        ensures { result ≡ route_at self.now k }
    {
        WrittenRoute {
            tlat: self.decimal_at(k + 1),
            tlong: self.decimal_at(k + 2),
            rlat: self.decimal_at(k + 4),
            rlong: self.decimal_at(k + 5),
            long_path: u32::from(self.is_long_at(k)),
        }
    }

    // The place after it.
    #[tactic(auto, unfolding(crate::specs::Line::route_end))]
    fn route_end(&self, k: usize) -> usize
        requires { k < 32 }
        ensures place { result ≡ route_end self.now k }
        ensures bound { result ≤ k + 7 }
    {
        if self.is_long_at(k) { k + 7 } else { k + 6 }
    }

    // 'E F1 F2 ES'
    #[tactic(auto, unfolding(crate::specs::Line::factors_at))]
    fn factors_at(&self, k: usize) -> WrittenFactors
        requires { k < 32 }
        ensures { result ≡ factors_at self.now k }
    {
        WrittenFactors {
            e: self.decimal_at(k),
            f1: self.decimal_at(k + 1),
            f2: self.decimal_at(k + 2),
            es: self.decimal_at(k + 3),
        }
    }

    // 'LAT LON'
    #[tactic(auto, unfolding(crate::specs::Line::pole_at))]
    fn pole_at(&self, k: usize) -> WrittenPole
        requires { k < 32 }
        ensures { result ≡ pole_at self.now k }
    {
        WrittenPole {
            lat: self.decimal_at(k),
            lon: self.decimal_at(k + 1),
        }
    }

    // ---- an open

    #[tactic(auto, unfolding(crate::specs::Line::head_fit))]
    fn head_fit(&self) -> Result<(), Fault>
        ensures { result ≡ head_fit self.now }
    {
        self.word_fit(1, Word::Month)?;
        self.whole_fit(2)?;
        self.word_fit(3, Word::Sunspot)?;
        self.number_fit(4)?;
        self.word_fit(5, Word::Hour)?;
        self.number_fit(6)?;
        self.route_fit(7)
    }

    #[tactic(auto, unfolding(crate::specs::Line::factors_start))]
    fn factors_start(&self) -> usize
        ensures place { result ≡ factors_start self.now }
        ensures bound { result ≤ 14 }
    {
        self.route_end(7)
    }

    #[tactic(auto, unfolding(crate::specs::Line::pole_start))]
    fn pole_start(&self) -> usize
        ensures place { result ≡ pole_start self.now }
        ensures bound { result ≤ 19 }
    {
        let k = self.factors_start();
        if self.has(k, Word::Factors) { k + 5 } else { k }
    }

    #[tactic(auto, unfolding(crate::specs::Line::model_start))]
    fn model_start(&self) -> usize
        ensures place { result ≡ model_start self.now }
        ensures bound { result ≤ 22 }
    {
        let k = self.pole_start();
        if self.has(k, Word::Pole) { k + 3 } else { k }
    }

    #[tactic(auto, unfolding(crate::specs::Line::open_end))]
    fn open_end(&self) -> usize
        ensures place { result ≡ open_end self.now }
        ensures bound { result ≤ 24 }
    {
        let k = self.model_start();
        if self.has(k, Word::Model) { k + 2 } else { k }
    }

    #[tactic(auto, unfolding(crate::specs::Line::factors_fit))]
    fn factors_fit(&self) -> Result<(), Fault>
        ensures { result ≡ factors_fit self.now }
    {
        let k = self.factors_start();
        if self.has(k, Word::Factors) {
            return self.four_fit(k + 1);
        }
        Ok(())
    }

    #[tactic(auto, unfolding(crate::specs::Line::pole_fit))]
    fn pole_fit(&self) -> Result<(), Fault>
        ensures { result ≡ pole_fit self.now }
    {
        let k = self.pole_start();
        if self.has(k, Word::Pole) {
            return self.pair_fit(k + 1);
        }
        Ok(())
    }

    #[tactic(auto, unfolding(crate::specs::Line::models_fit))]
    fn models_fit(&self) -> Result<(), Fault>
        ensures { result ≡ models_fit self.now }
    {
        let k = self.model_start();
        if self.has(k, Word::Model) {
            return self.model_fit(k + 1);
        }
        Ok(())
    }

    #[tactic(auto, unfolding(crate::specs::Line::open_fit))]
    fn open_fit(&self) -> Result<(), Fault>
        ensures { result ≡ open_fit self.now }
    {
        self.head_fit()?;
        self.factors_fit()?;
        self.pole_fit()?;
        self.models_fit()?;
        self.end_fit(self.open_end())
    }

    #[tactic(auto, unfolding(crate::specs::Line::opening_factors))]
    fn opening_factors(&self) -> WrittenFactors
        ensures { result ≡ opening_factors self.now }
    {
        let k = self.factors_start();
        if self.has(k, Word::Factors) {
            return self.factors_at(k + 1);
        }
        USUAL_FACTORS
    }

    #[tactic(auto, unfolding(crate::specs::Line::opening_pole))]
    fn opening_pole(&self) -> WrittenPole
        ensures { result ≡ opening_pole self.now }
    {
        let k = self.pole_start();
        if self.has(k, Word::Pole) {
            return self.pole_at(k + 1);
        }
        USUAL_POLE
    }

    #[tactic(auto, unfolding(crate::specs::Line::opening_model))]
    fn opening_model(&self) -> u32
        ensures { result ≡ opening_model self.now }
    {
        let k = self.model_start();
        if self.has(k, Word::Model) {
            return self.model_at(k + 1);
        }
        0
    }

    #[tactic(auto, unfolding(crate::specs::Line::opening_at))]
    fn opening_at(&self) -> WrittenInputs
        ensures { result ≡ opening_at self.now }
    {
        WrittenInputs {
            month: self.whole_at(2),
            ssn: self.decimal_at(4),
            gmt: self.decimal_at(6),
            route: self.route_at(7),
            psc: self.opening_factors(),
            pole: self.opening_pole(),
            model: self.opening_model(),
        }
    }

    // ---- a call of desk n, what it does being the word w: whether its words fit, and what is
    // meant. The two are decided apart and put together once: a branch over lines is dear.

    #[tactic(auto, unfolding(crate::specs::Line::change_fit))]
    fn change_fit(&self, w: Word) -> Result<(), Fault>
        ensures { result ≡ change_fit self.now w }
    {
        match w {
            Word::Sunspot | Word::Hour => {
                self.number_fit(2)?;
                self.end_fit(3)
            }
            Word::Path => {
                self.route_fit(2)?;
                self.end_fit(self.route_end(2))
            }
            Word::Factors => {
                self.four_fit(2)?;
                self.end_fit(6)
            }
            Word::Pole => {
                self.pair_fit(2)?;
                self.end_fit(4)
            }
            Word::Month => {
                self.whole_fit(2)?;
                self.end_fit(3)
            }
            Word::Model => {
                self.model_fit(2)?;
                self.end_fit(3)
            }
            _ => Err(Fault {
                word: 2,
                wanted: Wanted::Deed,
            }),
        }
    }

    #[tactic(auto, unfolding(crate::specs::Line::change_edit))]
    fn change_edit(&self, w: Word) -> WrittenEdit
        ensures { result ≡ change_edit self.now w }
    {
        match w {
            Word::Sunspot => WrittenEdit::Sunspot(self.decimal_at(2)),
            Word::Hour => WrittenEdit::Hour(self.decimal_at(2)),
            Word::Path => WrittenEdit::Path(self.route_at(2)),
            Word::Factors => WrittenEdit::Psc(self.factors_at(2)),
            Word::Pole => WrittenEdit::Pole(self.pole_at(2)),
            Word::Month => WrittenEdit::Month(self.whole_at(2)),
            _ => WrittenEdit::Model(self.model_at(2)),
        }
    }

    #[tactic(auto, unfolding(crate::specs::Line::deed_fit))]
    fn deed_fit(&self, w: Word) -> Result<(), Fault>
        ensures { result ≡ deed_fit self.now w }
    {
        match w {
            Word::Begin | Word::Commit | Word::Cancel | Word::Show => self.end_fit(2),
            _ => self.change_fit(w),
        }
    }

    #[tactic(auto, unfolding(crate::specs::Line::deed_call))]
    fn deed_call(&self, n: u32, w: Word) -> WrittenCall
        ensures { result ≡ deed_call self.now n w }
    {
        match w {
            Word::Begin => WrittenCall::Begin(n),
            Word::Commit => WrittenCall::Commit(n),
            Word::Cancel => WrittenCall::Cancel(n),
            Word::Show => WrittenCall::Show(n),
            _ => WrittenCall::Change(n, self.change_edit(w)),
        }
    }

    #[tactic(auto, using(crate::proofs::words::Fits::deed_parts))]
    fn deed_line(&self, n: u32, w: Word) -> Line
        ensures { result ≡ deed_line self.now n w }
    {
        call_if(self.deed_fit(w), self.deed_call(n, w))
    }

    // ---- a line

    // One that begins with a number, the desk's.
    #[tactic(auto, unfolding(crate::specs::Line::number_line))]
    fn number_line(&self, d: Decimal) -> Line
        ensures { result ≡ number_line self.now d }
    {
        if !d.is_whole() {
            return wrong(1, Wanted::Start);
        }
        match self.at(1) {
            Token::Word(w) => self.deed_line(d.digits as u32, w),
            _ => wrong(2, Wanted::Deed),
        }
    }

    // What fits and what is meant, of a line that begins with the word w and is no open.
    #[tactic(auto, unfolding(crate::specs::Line::bare_fit))]
    fn bare_fit(&self, w: Word) -> Result<(), Fault>
        ensures { result ≡ bare_fit self.now w }
    {
        match w {
            Word::Show => self.end_fit(1),
            Word::Take => {
                self.word_fit(1, Word::Back)?;
                self.end_fit(2)
            }
            _ => Err(Fault {
                word: 1,
                wanted: Wanted::Start,
            }),
        }
    }

    fn open_line(&self) -> Line
        ensures { result ≡ line_if (open_fit self.now) (Open (opening_at self.now)) }
    {
        line_if(self.open_fit(), Line::Open(self.opening_at()))
    }

    // One that begins with the word w.
    #[tactic(auto, using(crate::proofs::words::Fits::bare_parts), unfolding(crate::specs::Line::word_line))]
    fn word_line(&self, w: Word) -> Line
        ensures { result ≡ word_line self.now w }
    {
        match w {
            Word::Open => self.open_line(),
            _ => call_if(self.bare_fit(w), bare_call(w)),
        }
    }

    // By its first word.
    fn start_line(&self, first: Token) -> Line
        ensures { result ≡ start_line self.now first }
    {
        match first {
            Token::End => Line::Blank,
            Token::Word(w) => self.word_line(w),
            Token::Number(d) => self.number_line(d),
            Token::Other => wrong(1, Wanted::Start),
        }
    }
}

#[tactic(auto, unfolding(crate::specs::Line::bare_call))]
fn bare_call(w: Word) -> WrittenCall
    ensures { result ≡ bare_call w }
{
    match w {
        Word::Show => WrittenCall::Show(0),
        _ => WrittenCall::TakeBack,
    }
}

// A line, if all its words fit.
fn line_if(fit: Result<(), Fault>, line: Line) -> Line
    ensures { result ≡ line_if fit line }
{
    match fit {
        Ok(()) => line,
        Err(fault) => Line::Wrong(fault),
    }
}

fn call_if(fit: Result<(), Fault>, call: WrittenCall) -> Line
    ensures { result ≡ call_if fit call }
{
    line_if(fit, Line::Call(call))
}

fn wrong(word: u32, wanted: Wanted) -> Line
    ensures { result ≡ Wrong (record { word = word; wanted = wanted }) }
{
    Line::Wrong(Fault { word, wanted })
}

// What a line of a journal says.
#[tactic(auto, unfolding(crate::specs::Line::line_in))]
pub fn line_in(line: &[u8]) -> Line
    ensures { result ≡ line_in line.now }
{
    let t = tokens_in(line);
    t.start_line(t.at(0))
}
