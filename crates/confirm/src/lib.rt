// Confirms the fields of a form: numbers 9 to 11 of the paper's table, the confirmed states, line four, the first wiring and its labels.
// A function is kept out of line where its arrays are to leave the stack before others come.
#![tactic(auto)]

ghost use Rattle.std.specs.Prelude.{◌≡◌, ℕ, ◌*◌, ◌≤◌, ◌<◌, true, length, get_or, Ok, IfSome};
ghost use Rattle.answer.specs.Table.{Finds};
ghost use Rattle.wirings.specs.Wiring.{Counts as Counted};
ghost use Rattle.layout.specs.Layout.{sizes, runs_in};
ghost use Rattle.layout.specs.Sound.{fields};
ghost use Rattle.pieces.specs.Holds.{at, has, Ended};
ghost use Rattle.confirm.specs.Judged.{StatesOf, Weighs, Judges};
ghost use Rattle.confirm.specs.Concluded.{Confirms};
ghost use Rattle.confirm.specs.Marked.{Ruled};
ghost use Rattle.confirm.specs.Ready.{MarkedTo};
ghost use Rattle.bridges.specs.Kinds.{kind_number};

use answer::{Counts, Range, Refusal};
use bridges::Kind;
use layout::{Run, SoundForm};

// A byte for each run, its confirmed state; another, 1 where the first wiring uses it; each place's segment number; line four; and how many
// possible runs were struck, and pinned.
#[derive(Clone, Copy)]
pub struct Confirmation {
    pub marks: [u8; 1024],
    pub used: [u8; 1024],
    pub segments: [u16; 256],
    pub line: Range,
    pub counts: Counts,
}

// What numbers 9 to 11 found on the way: the labels by the fixed runs, which of them hold a supply, MIN and MAX.
#[derive(Drop)]
struct Judged {
    labels: [u16; 256],
    fed: [bool; 256],
    least: usize,
    most: usize,
}

// The states of the first m runs, and 0 for the others.
fn states(runs: &[u8], m: usize) -> [u8; 1024]
    requires { (m ≤ 1024) × (5 * m ≤ length runs.now) }
    ensures { StatesOf runs.now m result }
{
    let mut states = [0; 1024];
    for r in 0..m {
        states[r] = layout::run_at(runs, r).state;
    }
    states
}

// Number 10: the first place whose piece holds no supply.
fn first_bare(labels: [u16; 256], fed: [bool; 256], n: usize) -> Option<usize>
    requires { (n ≤ 256) × ((x : ℕ) → x < 256 → at labels x < 256) }
    ensures { Finds (λ x. has fed (at labels x) ≡ true) n result }
{
    for x in 0..n {
        if !fed[usize::from(labels[x])] {
            return Some(x);
        }
    }
    None
}

// The first of numbers 9 to 11 that has a fault.
fn verdict(
    closing: Option<usize>,
    bare: Option<usize>,
    line: Range,
    least: usize,
    most: usize,
) -> Result<(), Refusal>
    requires { IfSome closing (λ r. r < 1024) × IfSome bare (λ x. x < 256) }
    ensures { Weighs closing bare line.low line.high least most result }
{
    if let Some(run) = closing {
        let run = run as u16;
        return Err(Refusal::FixedLoop { run });
    }
    if let Some(place) = bare {
        let place = place as u16;
        return Err(Refusal::NoSupply { place });
    }
    if usize::from(line.high) < least || most < usize::from(line.low) {
        return Err(Refusal::NoSuchCount);
    }
    Ok(())
}

// The confirmed state of a run, from its state, the labels of its ends by the fixed runs and whether these hold a supply, its kind of bridge,
// whether low is MAX, and whether high is MIN.
fn mark(state: u8, a: u16, b: u16, fa: bool, fb: bool, kind: Kind, tight: bool, last: bool) -> u8
    ensures { Ruled state a b fa fb (kind_number kind) tight last result }
{
    if state != 1 {
        return state;
    }
    if a == b {
        return 0;
    }
    if tight && fa && fb {
        return 0;
    }
    match kind {
        Kind::Bypassed => 1,
        Kind::Supplied => { if last { 2 } else { 1 } }
        Kind::Bare => 2,
    }
}

// How many possible runs have been given a state.
fn count(states: &[u8; 1024], marks: &[u8; 1024], m: usize, state: u8) -> u16
    requires { m ≤ 1024 }
    ensures { Counted (λ j. (get_or states.now j 0 ≡ 1) × (get_or marks.now j 0 ≡ state)) m result }
{
    let mut k = 0;
    for r in 0..m {
        if states[r] == 1 && marks[r] == state {
            k += 1;
        }
    }
    k
}

// The confirmed states of the runs.
fn marks(
    runs: &[u8],
    line: Range,
    states: &[u8; 1024],
    judged: &Judged,
    kinds: &[Kind; 1024],
) -> [u8; 1024]
    requires few { runs_in sizes runs.now ≤ 1024 }
    requires ended { Ended runs.now (runs_in sizes runs.now) }
    requires labelled { (x : ℕ) → x < 256 → at judged.now.labels x < 256 }
    ensures { MarkedTo runs.now line.low line.high states.now judged.now.labels judged.now.fed kinds.now judged.now.least judged.now.most (runs_in sizes runs.now) result }
{
    let low = usize::from(line.low);
    let high = usize::from(line.high);
    let tight = judged.most <= low;
    let last = high <= judged.least;
    let mut marks = [0; 1024];
    for r in 0..layout::count(runs) {
        let Run { u, v, .. } = layout::run_at(runs, r);
        let a = judged.labels[u];
        let b = judged.labels[v];
        let fa = judged.fed[usize::from(a)];
        let fb = judged.fed[usize::from(b)];
        marks[r] = mark(states[r], a, b, fa, fb, kinds[r], tight, last);
    }
    marks
}

// Numbers 9 to 11, in their order.
#[inline(never)]
fn judge(form: SoundForm, states: &[u8; 1024]) -> Result<Judged, Refusal>
    requires { StatesOf form.runs.now (runs_in sizes form.runs.now) states.now }
    ensures { Judges (fields form.entry) result }
{
    let n = form.places.len();
    let m = layout::count(form.runs);
    let fixed = scan::fixed(states, m);
    let by_fixed = pieces::find(form.runs, &fixed[..m]);
    let by_unstruck = pieces::find(form.runs, &states[..m]);
    let labels = by_fixed.labels;
    let all = by_unstruck.labels;
    let fed = pieces::supplied(labels, form.places);
    let reached = pieces::supplied(all, form.places);
    let bare = first_bare(all, reached, n);
    let least = pieces::count(all, n);
    let most = pieces::count_supplied(labels, fed, form.places);
    verdict(by_fixed.closing, bare, form.line, least, most)?;
    Ok(Judged {
        labels,
        fed,
        least,
        most,
    })
}

// The confirmation of a form that numbers 9 to 11 say nothing against.
fn conclude(form: SoundForm, states: &[u8; 1024], judged: Judged) -> Confirmation
    requires states_of { StatesOf form.runs.now (runs_in sizes form.runs.now) states.now }
    requires judges { Judges (fields form) (Ok judged) }
    ensures { Confirms (fields form.entry) (Ok result) }
{
    let SoundForm {
        places,
        runs,
        line,
        ..
    } = form;
    let m = layout::count(runs);
    let kinds = bridges::kinds(places, runs, states, m);
    let marks = marks(runs, line, states, &judged, &kinds);
    let Judged { least, most, .. } = judged;
    let narrowed = line.narrowed(Range {
        low: least as u16,
        high: most as u16,
    });
    let wired = scan::scan(places, runs, states, m, most - usize::from(narrowed.high));
    let used = wired.used;
    let segments = wired.labels;
    Confirmation {
        marks,
        used,
        segments,
        line: narrowed,
        counts: Counts {
            struck: count(states, &marks, m, 0),
            pinned: count(states, &marks, m, 2),
        },
    }
}

// The confirmation, or the first of numbers 9 to 11 that refuses the form.
pub fn confirm(form: SoundForm) -> Result<Confirmation, Refusal>
    ensures { Confirms (fields form.entry) result }
{
    let states = states(form.runs, layout::count(form.runs));
    let judged = judge(form, &states)?;
    Ok(conclude(form, &states, judged))
}
