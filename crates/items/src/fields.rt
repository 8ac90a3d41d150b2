// The fields that the lines of a text give, as the writer takes them.
ghost use Rattle.std.specs.Prelude.{◌≡◌, ℕ, ◌≤◌, ◌<◌, ◌≢◌, length, slice_index, IfOk, Some};
ghost use Rattle.items.specs.Within.{Fits};
ghost use Rattle.items.specs.Messages.{error_text};

use crate::{Fault, Item, Wrong, read};
use answer::Range;
use layout::RUN;
use std::fmt;

// The fields: the places and the run records at the start of the lent arrays, and line four.
#[derive(Clone, Copy, Debug, PartialEq, Eq)]
pub struct Fields<'a> {
    pub places: &'a [u8],
    pub runs: &'a [u8],
    pub line: Range,
}

// Why a text gives no fields: the first line that is wrong, counted from 1; or the line past the last, where there is no count.
#[derive(Clone, Copy, Debug, PartialEq, Eq)]
pub enum TextError {
    Wrong { line: usize, wrong: Wrong },
    NoCount { line: usize },
}

impl fmt::Display for TextError {
    ghost output = { λ error. Some (error_text error) };

    fn fmt<W: fmt::Write>(&self, f: &mut fmt::Formatter<W>) -> fmt::Result {
        match self {
            TextError::Wrong { line, wrong } => write!(f, "line {line}: {wrong}"),
            TextError::NoCount { line } => write!(f, "line {line}: there is no count"),
        }
    }
}

// What the lines have given so far: how many bytes of places and of run records, and the count.
#[derive(Clone, Copy)]
struct SoFar {
    places: usize,
    records: usize,
    count: Option<Range>,
    ghost places_in: { places ≤ 257 },
    ghost records_in: { records ≤ 5125 },
}

impl SoFar {
    // A place more. A form has at most 256: the last byte stands for all that are too many.
    fn add_place(&mut self, supply: bool, places: &mut [u8; 257]) {
        let at = self.places.min(256);
        places[at] = u8::from(supply);
        self.places = at + 1;
    }

    // A run more. A form has at most 1,024: the last record stands for all that are too many.
    fn add_run(&mut self, u: u16, v: u16, state: u8, runs: &mut [u8; 5125]) {
        let at = self.records.min(5120);
        let [u_low, u_high] = u.to_le_bytes();
        let [v_low, v_high] = v.to_le_bytes();
        layout::put(&[u_low, u_high, v_low, v_high, state], runs, at);
        self.records = at + RUN;
    }

    // The count, unless there was one.
    fn add_count(&mut self, count: Range) -> Result<(), Wrong> {
        if self.count.is_some() {
            return Err(Wrong {
                word: 1,
                fault: Fault::SecondCount,
            });
        }
        self.count = Some(count);
        Ok(())
    }

    // One line more.
    fn add(
        &mut self,
        line: &[u8],
        places: &mut [u8; 257],
        runs: &mut [u8; 5125],
    ) -> Result<(), Wrong> {
        match read(line)? {
            Item::Nothing => {}
            Item::Place { supply } => self.add_place(supply, places),
            Item::Run { u, v, state } => self.add_run(u, v, state, runs),
            Item::Count(count) => self.add_count(count)?,
        }
        Ok(())
    }
}

// Where the line that begins at `at` ends: at the first line feed from there on, or else at the text's end.
fn line_end(text: &[u8], at: usize) -> usize
    requires { at ≤ length text.now }
    ensures from { at ≤ result }
    ensures within { result ≤ length text.now }
    ensures before { (k : ℕ) → at ≤ k → k < result → slice_index text.now k ≢ 10 }
    ensures found { result < length text.now → slice_index text.now result ≡ 10 }
{
    for i in at..text.len() {
        if text[i] == b'\n' {
            return i;
        }
    }
    text.len()
}

// A line without the carriage return at its end.
fn bare(line: &[u8]) -> &[u8] {
    line.strip_suffix(b"\r").unwrap_or(line)
}

// Goes through the lines up to the first that is wrong. A line ends at a line feed, and the last one may do without.
pub fn gather<'a>(
    text: &[u8],
    places: &'a mut [u8; 257],
    runs: &'a mut [u8; 5125],
) -> Result<Fields<'a>, TextError>
    requires { length text.now ≤ 65536 }
    ensures { IfOk result Fits }
{
    let mut so_far = SoFar {
        places: 0,
        records: 0,
        count: None,
    };
    let mut line = 1;
    let mut at = 0;
    while at < text.len() {
        let end = line_end(text, at);
        let bytes = bare(&text[at..end]);
        // An empty line says nothing.
        if !bytes.is_empty() {
            so_far
                .add(bytes, places, runs)
                .map_err(|wrong| TextError::Wrong { line, wrong })?;
        }
        at = end + 1;
        line += 1;
    }
    let Some(count) = so_far.count else {
        return Err(TextError::NoCount { line });
    };
    Ok(Fields {
        places: &places[..so_far.places],
        runs: &runs[..so_far.records],
        line: count,
    })
}
