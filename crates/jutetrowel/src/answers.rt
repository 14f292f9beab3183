// How answers cross to another language: whole numbers in structs that C lays out alike.
ghost use Rattle.std.specs.Prelude.{◌≡◌};
ghost use Rattle.jutetrowel.specs.Answers.{answer_of, showing_of, shown_numbers, placed};

use base::refusal::{Refusal, Report, Verdict};
use base::tables::Place;

// The documents' number of a refusal, and its place; 0 and 0 where nothing is refused.
#[repr(C)]
#[derive(Clone, Copy)]
pub struct Answer {
    pub number: u32,
    pub place: u32,
}

// How many points a sheet has; where it is refused 0, with the refusal's number and place.
#[repr(C)]
#[derive(Clone, Copy)]
pub struct Showing {
    pub points: u32,
    pub number: u32,
    pub place: u32,
}

// Where a part of a lent file starts, and its bytes; refused, both 0.
#[repr(C)]
#[derive(Clone, Copy)]
pub struct Span {
    pub start: usize,
    pub size: usize,
    pub number: u32,
    pub place: u32,
}

// A verdict as C has it.
impl From<Verdict> for Answer {
    #[tactic(auto, unfolding(crate::specs::Answers::answer_of))]
    fn from(verdict: Verdict) -> Answer
        ensures { result ≡ answer_of verdict }
    {
        let Report(number, place) = Report::from(verdict);
        Answer { number, place }
    }
}

// A showing as C has it: its points, or the refusal with 0 for them.
impl From<Result<u32, Refusal>> for Showing {
    #[tactic(auto, unfolding(crate::specs::Answers::showing_of))]
    fn from(shown: Result<u32, Refusal>) -> Showing
        ensures { result ≡ showing_of shown }
    {
        match shown {
            Ok(count) => Showing {
                points: count,
                number: 0,
                place: 0,
            },
            Err(why) => Showing {
                points: 0,
                number: why.number(),
                place: why.place(),
            },
        }
    }
}

// A showing's number and place alone.
impl From<Result<u32, Refusal>> for Answer {
    fn from(shown: Result<u32, Refusal>) -> Answer
        ensures { result ≡ shown_numbers shown }
    {
        let Showing { number, place, .. } = Showing::from(shown);
        Answer { number, place }
    }
}

// A part as C has it: where it lies, or the refusal with 0 for both.
impl From<Result<Place, Refusal>> for Span {
    #[tactic(auto, unfolding(crate::specs::Answers::placed, crate::specs::Answers::span_of))]
    fn from(at: Result<Place, Refusal>) -> Span
        ensures { result ≡ placed at }
    {
        match at {
            Ok(part) => Span {
                start: part.start,
                size: part.size,
                number: 0,
                place: 0,
            },
            Err(why) => Span {
                start: 0,
                size: 0,
                number: why.number(),
                place: why.place(),
            },
        }
    }
}
