// Prints a confirmed form as the paper lists it, a line at a time. Of a writer whose bytes are known, as a `Vec`, the contracts say which
// bytes it takes. A write that fails is the only error, and leaves written what went before it.
#![tactic(auto)]

ghost use Rattle.std.specs.Prelude.{◌≡◌, ◌≤◌, ◌+◌, ◌*◌, min, OnOk, replicate};
ghost use Rattle.std.specs.Io.KnownBytes.{Appends};
ghost use Rattle.listing.specs.Listing.{refused_line, step_line, ok_line, run_line, place_line, run_lines, place_lines, listing};
ghost use Rattle.layout.specs.Layout.{word as word_at};

use answer::Counts;
use layout::{CONTENTS, RUN, word};
use std::io;
use std::io::Write;

// The buffers that a form is confirmed into, long enough for any.
#[derive(Clone, Copy, Debug, PartialEq, Eq)]
pub struct Buffers {
    pub form: [u8; 5400],
    pub wiring: [u8; 1024],
    pub segments: [u16; 256],
}

impl Buffers {
    // Nothing is in them yet.
    pub fn new() -> Buffers
        ensures form { result.form ≡ replicate 5400 0 }
        ensures wiring { result.wiring ≡ replicate 1024 0 }
        ensures segments { result.segments ≡ replicate 256 0 }
    {
        Buffers {
            form: [0; 5400],
            wiring: [0; 1024],
            segments: [0; 256],
        }
    }
}

// A refusal: its number and its place.
pub fn refused<W: Write>(out: &mut W, number: u16, place: u16) -> io::Result<()>
    ensures { OnOk result (Appends (W.contents out.old) (W.contents out.new) (refused_line number place)) }
{
    writeln!(out, "refused {number} {place}")
}

// The step, counted from 0, at which an amendment was refused.
pub fn step<W: Write>(out: &mut W, number: usize) -> io::Result<()>
    ensures { OnOk result (Appends (W.contents out.old) (W.contents out.new) (step_line number)) }
{
    writeln!(out, "step {number}")
}

// A confirmed form in its buffers: the counts and line four, the runs, and the places.
pub fn accepted<W: Write>(out: &mut W, counts: Counts, lent: &Buffers) -> io::Result<()>
    ensures { OnOk result (Appends (W.contents out.old) (W.contents out.new)
        (listing counts.struck counts.pinned lent.now.form lent.now.wiring lent.now.segments
        (min (word_at lent.now.form 6) 256) (min (word_at lent.now.form 12) 1024))) }
{
    let form = &lent.form;
    let n = usize::from(word(form[6], form[7])).min(256);
    let m = usize::from(word(form[12], form[13])).min(1024);
    let at = CONTENTS + n + RUN * m;
    let low = word(form[at], form[at + 1]);
    let high = word(form[at + 2], form[at + 3]);
    first(out, counts, low, high)?;
    runs(out, form, n, m, &lent.wiring)?;
    places(out, form, n, &lent.segments)
}

// The line of a confirmed form: how many runs are struck and pinned, and line four.
fn first<W: Write>(out: &mut W, counts: Counts, low: u16, high: u16) -> io::Result<()>
    ensures { OnOk result (Appends (W.contents out.old) (W.contents out.new) (ok_line counts.struck counts.pinned low high)) }
{
    let Counts { struck, pinned } = counts;
    writeln!(out, "ok {struck} {pinned} {low} {high}")
}

fn runs<W: Write>(
    out: &mut W,
    form: &[u8; 5400],
    n: usize,
    m: usize,
    wiring: &[u8; 1024],
) -> io::Result<()>
    requires { (n ≤ 256) × (m ≤ 1024) }
    ensures { OnOk result (Appends (W.contents out.old) (W.contents out.new) (run_lines form.now n wiring.now m)) }
{
    for r in 0..m {
        run(out, r, form, CONTENTS + n + RUN * r, wiring[r])?;
    }
    Ok(())
}

fn places<W: Write>(
    out: &mut W,
    form: &[u8; 5400],
    n: usize,
    segments: &[u16; 256],
) -> io::Result<()>
    requires { n ≤ 256 }
    ensures { OnOk result (Appends (W.contents out.old) (W.contents out.new) (place_lines form.now segments.now n)) }
{
    for x in 0..n {
        place(out, x, form[CONTENTS + x], segments[x])?;
    }
    Ok(())
}

fn run<W: Write>(out: &mut W, r: usize, form: &[u8; 5400], at: usize, used: u8) -> io::Result<()>
    requires { at ≤ 5395 }
    ensures { OnOk result (Appends (W.contents out.old) (W.contents out.new) (run_line form.now at r used)) }
{
    let u = word(form[at], form[at + 1]);
    let v = word(form[at + 2], form[at + 3]);
    let state = form[at + 4];
    writeln!(out, "run {r} {u} {v} {state} {used}")
}

fn place<W: Write>(out: &mut W, x: usize, supply: u8, segment: u16) -> io::Result<()>
    ensures { OnOk result (Appends (W.contents out.old) (W.contents out.new) (place_line x supply segment)) }
{
    writeln!(out, "place {x} {supply} {segment}")
}
