// A form as plain text: what one line says, and the fields that all the lines give.
#![tactic(auto)]

mod fields;

ghost use Rattle.std.specs.Prelude.{◌≡◌, ◌≤◌, Some};
ghost use Rattle.items.specs.Messages.{meaning_of, wrong_text};
ghost use Rattle.items.specs.Items.{fault_of, NumberIn, StateIn, PairIn, Whole, RunIn, CountIn, Reads};

use answer::Range;
pub use fields::{Fields, TextError, gather};
use std::fmt;
use text::NotANumber;

// What is wrong with a word of a line.
#[derive(Clone, Copy, Debug, PartialEq, Eq)]
pub enum Fault {
    NotAnItem,
    NoNumber,
    NotDigits,
    Above,
    NoState,
    NotAState,
    OneTooMany,
    SecondCount,
}

// A word of a line that is wrong, counted from 1, and what is wrong with it.
#[derive(Clone, Copy, Debug, PartialEq, Eq)]
pub struct Wrong {
    pub word: u8,
    pub fault: Fault,
}

// What one line says.
#[derive(Clone, Copy, Debug, PartialEq, Eq)]
pub enum Item {
    Nothing,
    Place { supply: bool },
    Run { u: u16, v: u16, state: u8 },
    Count(Range),
}

impl fmt::Display for Fault {
    ghost output = { λ fault. Some (meaning_of fault) };

    fn fmt<W: fmt::Write>(&self, f: &mut fmt::Formatter<W>) -> fmt::Result {
        f.write_str(match self {
            Fault::NotAnItem => "is not place, supply, run or count",
            Fault::NoNumber => "is missing: a number",
            Fault::NotDigits => "is not a number in decimal digits",
            Fault::Above => "is a number above 65,535",
            Fault::NoState => "is missing: fixed, possible or struck",
            Fault::NotAState => "is not fixed, possible or struck",
            Fault::OneTooMany => "is one too many",
            Fault::SecondCount => "is a second count",
        })
    }
}

impl fmt::Display for Wrong {
    ghost output = { λ wrong. Some (wrong_text wrong) };

    fn fmt<W: fmt::Write>(&self, f: &mut fmt::Formatter<W>) -> fmt::Result {
        write!(f, "word {} {}", self.word, self.fault)
    }
}

impl From<NotANumber> for Fault {
    ghost from_gives = { λ e f. f ≡ fault_of e };

    fn from(error: NotANumber) -> Fault {
        match error {
            NotANumber::NotDigits => Fault::NotDigits,
            NotANumber::Above => Fault::Above,
        }
    }
}

// What a word says that is to be a number.
fn field_of(word: &[u8]) -> Result<u16, Fault>
    ensures { NumberIn word.now result }
{
    if word.is_empty() {
        return Err(Fault::NoNumber);
    }
    Ok(text::number(word)?)
}

// What a word says that is to be a run's state: its number on file.
fn state_of(word: &[u8]) -> Result<u8, Fault>
    ensures { StateIn word.now result }
{
    match word {
        b"" => Err(Fault::NoState),
        b"struck" => Ok(0),
        b"possible" => Ok(1),
        b"fixed" => Ok(2),
        _ => Err(Fault::NotAState),
    }
}

// The two numbers after the first word.
fn pair_of(line: &[u8]) -> Result<(u16, u16), Wrong>
    ensures { PairIn line.now result }
{
    let a = field_of(text::word(line, 1)).map_err(|fault| Wrong { word: 2, fault })?;
    let b = field_of(text::word(line, 2)).map_err(|fault| Wrong { word: 3, fault })?;
    Ok((a, b))
}

// The item, if the line has no more than this many words.
fn whole(line: &[u8], words: u8, item: Item) -> Result<Item, Wrong>
    requires { words ≤ 4 }
    ensures { Whole line.now words item result }
{
    if text::word(line, usize::from(words)).is_empty() {
        return Ok(item);
    }
    Err(Wrong {
        word: words + 1,
        fault: Fault::OneTooMany,
    })
}

fn run_of(line: &[u8]) -> Result<Item, Wrong>
    ensures { RunIn line.now result }
{
    let (u, v) = pair_of(line)?;
    let state = state_of(text::word(line, 3)).map_err(|fault| Wrong { word: 4, fault })?;
    whole(line, 4, Item::Run { u, v, state })
}

fn count_of(line: &[u8]) -> Result<Item, Wrong>
    ensures { CountIn line.now result }
{
    let (low, high) = pair_of(line)?;
    whole(line, 3, Item::Count(Range { low, high }))
}

// What a line says: nothing where it is blank or its first word begins with #.
pub fn read(line: &[u8]) -> Result<Item, Wrong>
    ensures { Reads line.now result }
{
    match text::word(line, 0) {
        [] | [b'#', ..] => Ok(Item::Nothing),
        b"place" => whole(line, 1, Item::Place { supply: false }),
        b"supply" => whole(line, 1, Item::Place { supply: true }),
        b"run" => run_of(line),
        b"count" => count_of(line),
        _ => Err(Wrong {
            word: 1,
            fault: Fault::NotAnItem,
        }),
    }
}
