// What every call answers: the paper's counts, or a row of its table of refusals; and a range of segment counts.
#![tactic(auto)]

ghost use Rattle.std.specs.Prelude.{◌≡◌, Some};
ghost use Rattle.answer.specs.Reply.{number_of, place_of, both};
ghost use Rattle.answer.specs.Text.{refusal_text};

use std::fmt;

// The segment counts from low to high, both included; none where high is below low.
#[derive(Clone, Copy, Debug, PartialEq, Eq)]
pub struct Range {
    pub low: u16,
    pub high: u16,
}

// How many possible runs the last filtering struck, and how many it pinned.
#[derive(Clone, Copy, Debug, PartialEq, Eq)]
pub struct Counts {
    pub struck: u16,
    pub pinned: u16,
}

// What is refused: the rows of the paper's table in their order, with the place or the run that a row names.
#[derive(Clone, Copy, Debug, PartialEq, Eq)]
pub enum Refusal {
    NoContents,
    WrongNumbers,
    WrongLayout,
    BadPlace { place: u16 },
    BadRun { run: u16 },
    RepeatedRun { run: u16 },
    LowAboveHigh,
    NoRoom,
    FixedLoop { run: u16 },
    NoSupply { place: u16 },
    NoSuchCount,
    NoAmendment,
    NarrowedToNone,
    NoWiring,
}

// Accepted, with the counts; or refused.
pub type Answer = Result<Counts, Refusal>;

impl Range {
    // The counts that lie in both ranges: the larger low and the smaller high, empty ranges included.
    pub fn narrowed(self, by: Range) -> Range
        ensures { result ≡ both self by }
    {
        Range {
            low: self.low.max(by.low),
            high: self.high.min(by.high),
        }
    }
}

impl Refusal {
    // The row's number.
    pub fn number(self) -> u16
        ensures { result ≡ number_of self }
    {
        match self {
            Refusal::NoContents => 1,
            Refusal::WrongNumbers => 2,
            Refusal::WrongLayout => 3,
            Refusal::BadPlace { .. } => 4,
            Refusal::BadRun { .. } => 5,
            Refusal::RepeatedRun { .. } => 6,
            Refusal::LowAboveHigh => 7,
            Refusal::NoRoom => 8,
            Refusal::FixedLoop { .. } => 9,
            Refusal::NoSupply { .. } => 10,
            Refusal::NoSuchCount => 11,
            Refusal::NoAmendment => 12,
            Refusal::NarrowedToNone => 13,
            Refusal::NoWiring => 14,
        }
    }

    // The place in the form, or 0 where the row names none.
    pub fn place(self) -> u16
        ensures { result ≡ place_of self }
    {
        match self {
            Refusal::BadPlace { place } | Refusal::NoSupply { place } => place,
            Refusal::BadRun { run } | Refusal::RepeatedRun { run } | Refusal::FixedLoop { run } =>
                run,
            _ => 0,
        }
    }
}

// As the programs print it.
impl fmt::Display for Refusal {
    ghost output = { λ refusal. Some (refusal_text refusal) };

    fn fmt<W: fmt::Write>(&self, f: &mut fmt::Formatter<W>) -> fmt::Result {
        write!(f, "refused {} {}", self.number(), self.place())
    }
}
