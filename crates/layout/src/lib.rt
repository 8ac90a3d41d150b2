// The form on file: its sizes, and numbers 2 and 4 to 7 of the paper's table, which reader and writer share.
#![tactic(auto)]

ghost use Rattle.std.specs.Prelude.{◌≡◌, ◌+◌, ◌*◌, ◌≤◌, ◌<◌, length};
ghost use Rattle.answer.specs.Table.{Finds, Decides, Clears};
ghost use Rattle.layout.specs.Layout.{sizes, runs_in, end_u, end_v, Shows, line_four_bytes, over_at};
ghost use Rattle.layout.specs.Rows.{Numbers, Place, Good, Fresh, sound_rows};
ghost use Rattle.layout.specs.Checked.{Checks};

use answer::{Range, Refusal};

// The bytes of the table of contents, and of one run.
pub const CONTENTS: usize = 20;

pub const RUN: usize = 5;

// How many places and runs a form may have.
const MOST_PLACES: usize = 256;

const MOST_RUNS: usize = 1024;

// One run: its ends and its state.
#[derive(Clone, Copy, Debug, PartialEq, Eq)]
pub struct Run {
    pub u: usize,
    pub v: usize,
    pub state: u8,
}

// The fields of a form that numbers 2 and 4 to 7 have nothing against: a byte for each place, the records of the runs, and line four.
#[derive(Clone, Copy)]
pub struct SoundForm<'a> {
    pub places: &'a [u8],
    pub runs: &'a [u8],
    pub line: Range,
    ghost clears: { Clears (sound_rows sizes (record { places = places.now; runs = runs.now; low = line.low; high = line.high })) },
}

// The 16 bits of two bytes.
pub fn word(low: u8, high: u8) -> u16
    ensures { result ≡ low + 256 * high }
{
    u16::from_le_bytes([low, high])
}

// Run r of a run section.
pub fn run_at(runs: &[u8], r: usize) -> Run
    requires { 5 * r + 5 ≤ length runs.now }
    ensures { Shows sizes runs.now r result.u result.v result.state }
{
    let at = RUN * r;
    Run {
        u: usize::from(word(runs[at], runs[at + 1])),
        v: usize::from(word(runs[at + 2], runs[at + 3])),
        state: runs[at + 4],
    }
}

// How many runs the bytes of a run section hold, a torn last one counted.
pub fn count(runs: &[u8]) -> usize
    ensures { result ≡ runs_in sizes runs.now }
{
    runs.len().div_ceil(RUN)
}

// Number 2: whether a form may have n places and m runs.
pub fn numbers(n: usize, m: usize) -> bool
    ensures { Decides (Numbers n m) result }
{
    1 <= n && n <= MOST_PLACES && m <= MOST_RUNS
}

// Number 4: the first place whose byte is above 1.
fn first_bad_place(places: &[u8]) -> Option<usize>
    ensures { Finds (Place places.now) (length places.now) result }
{
    places.iter().position(|supply| 1 < *supply)
}

// Number 5: the first run whose record is torn or out of range.
fn first_bad_run(runs: &[u8], n: usize, m: usize) -> Option<usize>
    requires { m ≤ 1024 }
    ensures { Finds (Good sizes n runs.now) m result }
{
    for r in 0..m {
        if !good_run(runs, n, r) {
            return Some(r);
        }
    }
    None
}

fn good_run(runs: &[u8], n: usize, r: usize) -> bool
    requires { r < 1024 }
    ensures { Decides (Good sizes n runs.now r) result }
{
    if runs.len() < RUN * r + RUN {
        return false;
    }
    let Run { u, v, state } = run_at(runs, r);
    u < v && v < n && state <= 2
}

// Number 6: the first run with the ends of an earlier one. The search goes no further through either list.
fn first_repeat(runs: &[u8], m: usize) -> Option<usize>
    requires { 5 * m ≤ length runs.now }
    ensures { Finds (Fresh sizes runs.now) m result }
{
    'search: {
        for later in 0..m {
            let new = ends(runs, later);
            for earlier in 0..later {
                if ends(runs, earlier) == new {
                    break 'search Some(later);
                }
            }
        }
        None
    }
}

// Both ends of run r as one number, for comparing.
fn ends(runs: &[u8], r: usize) -> u32
    requires { 5 * r + 5 ≤ length runs.now }
    ensures value { result ≡ end_u sizes runs.now r + 65536 * end_v sizes runs.now r }
    ensures low { end_u sizes runs.now r < 65536 }
{
    let at = RUN * r;
    u32::from_le_bytes([runs[at], runs[at + 1], runs[at + 2], runs[at + 3]])
}

// Numbers 2 and 4 to 7, in their order, of a byte for each place, the records of the runs, and line four.
pub fn check(places: &[u8], runs: &[u8], line: Range) -> Result<(), Refusal>
    ensures { Checks (record { places = places.now; runs = runs.now; low = line.low; high = line.high }) result }
{
    let n = places.len();
    let m = count(runs);
    if !numbers(n, m) {
        return Err(Refusal::WrongNumbers);
    }
    if let Some(place) = first_bad_place(places) {
        let place = place as u16;
        return Err(Refusal::BadPlace { place });
    }
    if let Some(run) = first_bad_run(runs, n, m) {
        let run = run as u16;
        return Err(Refusal::BadRun { run });
    }
    if let Some(run) = first_repeat(runs, m) {
        let run = run as u16;
        return Err(Refusal::RepeatedRun { run });
    }
    if line.high < line.low {
        return Err(Refusal::LowAboveHigh);
    }
    Ok(())
}

// The bytes of line four.
pub fn line_four(line: Range) -> [u8; 4]
    ensures { result ≡ line_four_bytes line.low line.high }
{
    let [a, b] = line.low.to_le_bytes();
    let [c, d] = line.high.to_le_bytes();
    [a, b, c, d]
}

// Writes src into the buffer from at on.
pub fn put<T: Copy>(src: &[T], buffer: &mut [T], at: usize)
    requires { at + length src.now ≤ length buffer.old }
    ensures { buffer.new ≡ over_at at src.now buffer.old }
{
    for (i, value) in src.iter().enumerate() {
        buffer[at + i] = *value;
    }
}
