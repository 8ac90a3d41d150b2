// One amendment: the form is filtered, the amendment written into the confirmed form, and the result filtered again.
#![tactic(auto)]

ghost use Rattle.std.specs.Prelude.{◌<◌, length};
ghost use Rattle.layout.specs.Layout.{sizes};
ghost use Rattle.layout.specs.Rows.{fields_of};
ghost use Rattle.amend.specs.Amending.{Marks, WritesIn, Amends};
ghost use Rattle.amend.specs.Writing.{OnFile};

use answer::{Answer, Range, Refusal};
use layout::{CONTENTS, RUN};
use reader::Form;

// Applies one amendment, three numbers, to the form; or refuses it and leaves the buffers as they were.
pub fn amend(
    image: &[u8],
    kind: u16,
    first: u16,
    second: u16,
    form: &mut [u8],
    wiring: &mut [u8],
    segments: &mut [u16],
) -> Answer
    ensures { Amends image.now kind first second form.old wiring.old segments.old result form.new wiring.new segments.new }
{
    let mut draft = [0u8; 5400];
    let mut used = [0u8; 1024];
    let mut labels = [0u16; 256];
    let f = form.len().min(draft.len());
    let w = wiring.len().min(used.len());
    let s = segments.len().min(labels.len());
    let confirmed = filter::filter(image, &mut draft[..f], &mut used[..w], &mut labels[..s]);
    confirmed?;
    write_in(&mut draft[..image.len()], kind, first, second)?;
    let amended = filter::filter(&draft[..image.len()], form, wiring, segments);
    amended.map_err(|_| Refusal::NoWiring)
}

// Writes the amendment into a confirmed form; or refuses it.
fn write_in(form: &mut [u8], kind: u16, first: u16, second: u16) -> Result<(), Refusal>
    requires { OnFile form.old }
    ensures { WritesIn (fields_of sizes form.old) kind first second form.new result }
{
    let Form { places, runs, line } = reader::read(form)?;
    let runs_at = CONTENTS + places;
    let line_at = runs_at + RUN * runs;
    let run = usize::from(first);
    let state_at = runs_at + RUN * run + 4;
    match (kind, second) {
        (1, 0) if run < runs => mark(form, state_at, 0, 2),
        (2, 0) if run < runs => mark(form, state_at, 2, 0),
        (3, _) if second < first => Err(Refusal::NarrowedToNone),
        (3, _) => {
            let by = Range {
                low: first,
                high: second,
            };
            layout::put(&layout::line_four(line.narrowed(by)), form, line_at);
            Ok(())
        }
        _ => Err(Refusal::NoAmendment),
    }
}

// Writes a state, unless the other one stands there.
fn mark(form: &mut [u8], at: usize, other: u8, state: u8) -> Result<(), Refusal>
    requires { at < length form.old }
    ensures { Marks form.old at other state form.new result }
{
    if form[at] == other {
        return Err(Refusal::NoWiring);
    }
    form[at] = state;
    Ok(())
}
