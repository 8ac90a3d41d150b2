// Which places chosen runs join, in numbers per place: each place's label is the smallest place of its piece.
#![tactic(auto)]

ghost use Rattle.std.specs.Prelude.{◌≡◌, ℕ, ◌≤◌, ◌<◌, length, get_or};
ghost use Rattle.answer.specs.Table.{Finds};
ghost use Rattle.wirings.specs.Labels.{moved};
ghost use Rattle.wirings.specs.Pieces.{pieces, stock, fed_pieces};
ghost use Rattle.pieces.specs.Holds.{at, Holds, Tells, Ended, labels_of, Opens};

use layout::Run;
use std::array;

// The labels that chosen runs give, and the first of these runs whose ends earlier ones join already.
#[derive(Clone, Copy, Debug, PartialEq, Eq)]
pub struct Found {
    pub labels: [u16; 256],
    pub closing: Option<usize>,
}

// Each place a piece of its own.
pub fn alone() -> [u16; 256]
    ensures { Holds (λ x. x) result }
{
    array::from_fn(|x| x as u16)
}

// The pieces of two places joined: the larger label becomes the smaller.
pub fn join(labels: [u16; 256], u: usize, v: usize) -> [u16; 256]
    requires { (u < 256) × (v < 256) }
    ensures { Holds (λ x. moved (at labels u) (at labels v) (at labels x)) result }
{
    let low = labels[u].min(labels[v]);
    let high = labels[u].max(labels[v]);
    let mut joined = labels;
    for label in &mut joined {
        if *label == high {
            *label = low;
        }
    }
    joined
}

// The labels by the runs whose flag is above 0: as many runs as there are flags.
pub fn find(runs: &[u8], flags: &[u8]) -> Found
    requires { Ended runs.now (length flags.now) }
    ensures holds { Holds (labels_of runs.now flags.now (length flags.now)) result.labels }
    ensures first { Finds (Opens runs.now flags.now) (length flags.now) result.closing }
{
    let mut labels = alone();
    let mut closing = None;
    for (r, flag) in flags.iter().enumerate() {
        if 0 < *flag {
            let Run { u, v, .. } = layout::run_at(runs, r);
            if labels[u] == labels[v] {
                closing = closing.or(Some(r));
            } else {
                labels = join(labels, u, v);
            }
        }
    }
    Found { labels, closing }
}

// For each label whether its piece holds a supply.
pub fn supplied(labels: [u16; 256], places: &[u8]) -> [bool; 256]
    requires small { (length places.now ≤ 256) × ((x : ℕ) → x < 256 → at labels x < 256) }
    requires bits { (x : ℕ) → get_or places.now x 0 ≤ 1 }
    ensures { Tells (stock (length places.now) (at places.now) (at labels)) result }
{
    let mut fed = [false; 256];
    for (y, supply) in places.iter().enumerate() {
        if *supply == 1 {
            fed[usize::from(labels[y])] = true;
        }
    }
    fed
}

// How many pieces there are among the first n places.
pub fn count(labels: [u16; 256], n: usize) -> usize
    requires { n ≤ 256 }
    ensures { result ≡ pieces n (at labels) }
{
    (0..n).filter(|x| usize::from(labels[*x]) == *x).count()
}

// How many of them hold a supply, by what `supplied` says.
pub fn count_supplied(labels: [u16; 256], fed: [bool; 256], places: &[u8]) -> usize
    requires small { length places.now ≤ 256 }
    requires supplied { Tells (stock (length places.now) (at places.now) (at labels)) fed }
    ensures { result ≡ fed_pieces (length places.now) (at places.now) (at labels) }
{
    (0..places.len())
        .filter(|x| usize::from(labels[*x]) == *x && fed[*x])
        .count()
}
