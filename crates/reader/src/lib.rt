// Reads a form on file: numbers 1 to 7 of the paper's table, and the sections of the image.
#![tactic(auto)]

ghost use Rattle.std.specs.Prelude.{◌≤◌, length};
ghost use Rattle.answer.specs.Table.{Decides};
ghost use Rattle.layout.specs.Layout.{sizes};
ghost use Rattle.layout.specs.Rows.{Listed, Numbers, Laid};
ghost use Rattle.reader.specs.Reading.{Reads, Places, Runs};

use answer::{Range, Refusal};
use layout::{CONTENTS, RUN, word};

// A form: how many places and runs it has, and line four.
#[derive(Clone, Copy, Debug, PartialEq, Eq)]
pub struct Form {
    pub places: usize,
    pub runs: usize,
    pub line: Range,
}

// Number 1: whether the table of contents is there and names the three parts in their order.
fn listed(image: &[u8]) -> bool
    ensures { Decides (Listed sizes image.now) result }
{
    if image.len() < CONTENTS {
        return false;
    }
    if word(image[0], image[1]) != 3 {
        return false;
    }
    if word(image[2], image[3]) != 1 {
        return false;
    }
    if word(image[8], image[9]) != 2 {
        return false;
    }
    if word(image[14], image[15]) != 3 {
        return false;
    }
    if word(image[18], image[19]) != 1 {
        return false;
    }
    true
}

// Number 3: whether the offsets and the length are those of n places and m runs.
fn laid(image: &[u8], n: usize, m: usize) -> bool
    requires contents_there { 20 ≤ length image.now }
    requires numbers { Numbers n m }
    ensures { Decides (Laid sizes image.now n m) result }
{
    let runs_at = CONTENTS + n;
    let line_at = runs_at + RUN * m;
    if usize::from(word(image[4], image[5])) != CONTENTS {
        return false;
    }
    if usize::from(word(image[10], image[11])) != runs_at {
        return false;
    }
    if usize::from(word(image[16], image[17])) != line_at {
        return false;
    }
    if image.len() != line_at + 4 {
        return false;
    }
    true
}

// The form, or the first of numbers 1 to 7 that refuses it.
pub fn read(image: &[u8]) -> Result<Form, Refusal>
    ensures { Reads image.now result }
{
    if !listed(image) {
        return Err(Refusal::NoContents);
    }
    let places = usize::from(word(image[6], image[7]));
    let runs = usize::from(word(image[12], image[13]));
    if !layout::numbers(places, runs) {
        return Err(Refusal::WrongNumbers);
    }
    if !laid(image, places, runs) {
        return Err(Refusal::WrongLayout);
    }
    let runs_at = CONTENTS + places;
    let at = runs_at + RUN * runs;
    let line = Range {
        low: word(image[at], image[at + 1]),
        high: word(image[at + 2], image[at + 3]),
    };
    layout::check(&image[CONTENTS..runs_at], &image[runs_at..at], line)?;
    Ok(Form { places, runs, line })
}

// The byte of each place, as the part of the image that holds them; empty where the image is refused.
pub fn place_section(image: &[u8]) -> &[u8]
    ensures { Places image.now result.now }
{
    match read(image) {
        Ok(form) => &image[CONTENTS..CONTENTS + form.places],
        Err(_) => &image[..0],
    }
}

// The run records, as the part of the image that holds them; empty where the image is refused.
pub fn run_section(image: &[u8]) -> &[u8]
    ensures { Runs image.now result.now }
{
    match read(image) {
        Ok(form) => {
            let start = CONTENTS + form.places;
            &image[start..start + RUN * form.runs]
        }
        Err(_) => &image[..0],
    }
}
