// Writes a form on file: numbers 2 and 4 to 8 of the paper's table, and the bytes.
#![tactic(auto)]

ghost use Rattle.std.specs.Prelude.{◌≡◌};
ghost use Rattle.layout.specs.Layout.{sizes, contents};
ghost use Rattle.layout.specs.Rows.{Numbers};
ghost use Rattle.writer.specs.Writing.{Writes};

use answer::{Range, Refusal};
use layout::{CONTENTS, RUN};

fn table_of_contents(n: usize, m: usize) -> [u8; 20]
    requires { Numbers n m }
    ensures { result ≡ contents sizes n m }
{
    let runs_at = CONTENTS + n;
    let line_at = runs_at + RUN * m;
    let [n_low, n_high] = (n as u16).to_le_bytes();
    let [runs_low, runs_high] = (runs_at as u16).to_le_bytes();
    let [m_low, m_high] = (m as u16).to_le_bytes();
    let [line_low, line_high] = (line_at as u16).to_le_bytes();
    [
        3,
        0,
        1,
        0,
        CONTENTS as u8,
        0,
        n_low,
        n_high,
        2,
        0,
        runs_low,
        runs_high,
        m_low,
        m_high,
        3,
        0,
        line_low,
        line_high,
        1,
        0,
    ]
}

// Writes the form of these places, runs and line four at the start of the lent buffer, and keeps the rest of it. Returns the form's length.
pub fn write(places: &[u8], runs: &[u8], line: Range, form: &mut [u8]) -> Result<usize, Refusal>
    ensures { Writes (record { places = places.now; runs = runs.now; low = line.low; high = line.high }) form.old result form.new }
{
    layout::check(places, runs, line)?;
    let n = places.len();
    let m = runs.len() / RUN;
    let runs_at = CONTENTS + n;
    let line_at = runs_at + RUN * m;
    let length = line_at + 4;
    if form.len() < length {
        return Err(Refusal::NoRoom);
    }
    let contents = table_of_contents(n, m);
    let four = layout::line_four(line);
    layout::put(&contents, form, 0);
    layout::put(places, form, CONTENTS);
    layout::put(runs, form, runs_at);
    layout::put(&four, form, line_at);
    Ok(length)
}
