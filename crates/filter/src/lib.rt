// The filter: confirms a form on file, or refuses it, with the first wiring and its segment numbers.
#![tactic(auto)]

ghost use Rattle.std.specs.Prelude.{◌≡◌, ◌*◌, ◌≤◌, length};
ghost use Rattle.answer.specs.Table.{Decides};
ghost use Rattle.layout.specs.Layout.{sizes, length_of, over};
ghost use Rattle.layout.specs.Layout.{image as on_file};
ghost use Rattle.layout.specs.Rows.{Numbers, fields_of};
ghost use Rattle.pieces.specs.Holds.{at};
ghost use Rattle.filter.specs.Filtered.{restated, confirmed_fields, Filters};
ghost use Rattle.filter.specs.Confirmed.{IsForm};

use answer::{Answer, Range, Refusal};
use layout::{CONTENTS, RUN, SoundForm};
use reader::Form;

// Writes new states into the records of m runs.
fn restate(runs: &mut [u8], marks: &[u8; 1024], m: usize)
    requires { (m ≤ 1024) × (5 * m ≤ length runs.old) }
    ensures { runs.new ≡ restated (at marks.now) m runs.old }
{
    for r in 0..m {
        runs[RUN * r + 4] = marks[r];
    }
}

// Writes the confirmed form: the image with other states, and line four.
fn write_form(image: &[u8], n: usize, m: usize, marks: &[u8; 1024], line: Range, form: &mut [u8])
    requires form { IsForm image.now n m }
    requires room { length image.now ≤ length form.old }
    ensures { form.new ≡ over (on_file sizes (confirmed_fields (fields_of sizes image.now) (at marks.now) line.low line.high)) form.old }
{
    let runs_at = CONTENTS + n;
    let line_at = runs_at + RUN * m;
    layout::put(&image[..line_at], form, 0);
    restate(&mut form[runs_at..line_at], marks, m);
    layout::put(&layout::line_four(line), form, line_at);
}

// Whether the buffers are long enough for a form with n places and m runs.
fn room(n: usize, m: usize, form: usize, wiring: usize, segments: usize) -> bool
    requires { Numbers n m }
    ensures { Decides ((length_of sizes n m ≤ form) × (m ≤ wiring) × (n ≤ segments)) result }
{
    CONTENTS + n + RUN * m + 4 <= form && m <= wiring && n <= segments
}

// Confirms the form, or refuses it and leaves the buffers as they were.
pub fn filter(image: &[u8], form: &mut [u8], wiring: &mut [u8], segments: &mut [u16]) -> Answer
    ensures { Filters image.now form.old wiring.old segments.old result form.new wiring.new segments.new }
{
    let Form {
        places: n,
        runs: m,
        line,
    } = reader::read(image)?;
    if !room(n, m, form.len(), wiring.len(), segments.len()) {
        return Err(Refusal::NoRoom);
    }
    let runs_at = CONTENTS + n;
    let line_at = runs_at + RUN * m;
    let confirmed = confirm::confirm(SoundForm {
        places: &image[CONTENTS..runs_at],
        runs: &image[runs_at..line_at],
        line,
    })?;
    write_form(image, n, m, &confirmed.marks, confirmed.line, form);
    layout::put(&confirmed.used[..m], wiring, 0);
    layout::put(&confirmed.segments[..n], segments, 0);
    Ok(confirmed.counts)
}
