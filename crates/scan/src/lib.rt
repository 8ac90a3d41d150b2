// The scan for the first wiring: possible runs in listed order, each taken unless its ends are joined already or it would join two supplied
// pieces when nothing is spare.
// A function is kept out of line where its arrays are to leave the stack before others come.
#![tactic(auto)]

ghost use Rattle.std.specs.Prelude.{◌≡◌, ◌≤◌, ◌<◌};
ghost use Rattle.pieces.specs.Holds.{Fits};
ghost use Rattle.scan.specs.Scans.{Scans, Flags, Merges};

use layout::Run;

// A byte for each run, 1 where the wiring uses it; and each place's label by these runs.
#[derive(Clone, Copy, Debug, PartialEq, Eq)]
pub struct Wired {
    pub used: [u8; 1024],
    pub labels: [u16; 256],
}

// 1 for each fixed run.
pub fn fixed(states: &[u8; 1024], m: usize) -> [u8; 1024]
    requires { m ≤ 1024 }
    ensures { Flags states.now m result }
{
    let mut flags = [0; 1024];
    for r in 0..m {
        flags[r] = u8::from(states[r] == 2);
    }
    flags
}

// Which labels hold a supply after the pieces with labels a and b are joined: the smaller label has what either had.
fn merged(fed: [bool; 256], a: usize, b: usize) -> [bool; 256]
    requires { (a < 256) × (b < 256) × (a ≡ b → ⊥) }
    ensures { Merges fed a b result }
{
    let mut after = fed;
    after[a.min(b)] = fed[a] || fed[b];
    after[a.max(b)] = false;
    after
}

// The runs that the scan uses with so many joins to spare, and the labels they give.
#[inline(never)]
pub fn scan(places: &[u8], runs: &[u8], states: &[u8; 1024], m: usize, spare: usize) -> Wired
    requires { Fits places.now runs.now m }
    ensures { Scans places.now runs.now states.now m spare result.used result.labels }
{
    let mut used = fixed(states, m);
    let mut labels = pieces::find(runs, &used[..m]).labels;
    let mut fed = pieces::supplied(labels, places);
    let mut left = spare;
    for r in 0..m {
        if states[r] == 1 {
            let Run { u, v, .. } = layout::run_at(runs, r);
            let a = usize::from(labels[u]);
            let b = usize::from(labels[v]);
            let cost = usize::from(fed[a] && fed[b]);
            if a != b && cost <= left {
                left -= cost;
                used[r] = 1;
                labels = pieces::join(labels, u, v);
                fed = merged(fed, a, b);
            }
        }
    }
    Wired { used, labels }
}
