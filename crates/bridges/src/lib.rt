// Which unstruck runs are bridges, and whether both their sides hold a supply, in one pass over a forest grown over the unstruck runs. A run outside the
// forest is no bridge, and neither is any run of it that one goes round: from the ends of each run outside one climbs to where their ways meet, and marks
// the places passed. The side of a bridge with the root holds a supply if any does, since supplies are rooted first; the other is summed up backwards.
// A function is kept out of line where its arrays are to leave the stack before others come.
#![tactic(auto)]

ghost use Rattle.std.specs.Prelude.{◌≤◌, length};
ghost use Rattle.pieces.specs.Holds.{Fits};
ghost use Rattle.bridges.specs.Kinds.{Kinds};
ghost use Rattle.bridges.specs.Routine.{Climbable, Climbs, Supplies, Feedable, Feeds, Ruled, Concluded};

use forest::Forest;
use layout::Run;

// What an unstruck run is: bypassed where others join its ends, else a bridge; supplied where both its sides hold a supply, bare where one does not.
#[derive(Clone, Copy, Debug, PartialEq, Eq)]
pub enum Kind {
    Bypassed,
    Supplied,
    Bare,
}

// The kind of each run whose state is above 0.
#[inline(never)]
pub fn kinds(places: &[u8], runs: &[u8], states: &[u8; 1024], m: usize) -> [Kind; 1024]
    requires { Fits places.now runs.now m }
    ensures { Kinds places.now runs.now states.now m result }
{
    let grown = forest::grow(places, runs, states, m);
    let mut passed = [false; 256];
    for r in 0..m {
        if 0 < states[r] {
            let Run { u, v, .. } = layout::run_at(runs, r);
            if usize::from(grown.via[u]) != r && usize::from(grown.via[v]) != r {
                climb(&grown, &mut passed, u, v);
            }
        }
    }
    let fed = fed(places, &grown, m);
    conclude(&grown, &passed, &fed, places.len(), m)
}

// Climbs from two places to where their ways meet, always from the one that came later, and marks the places passed.
fn climb(grown: &Forest, passed: &mut [bool; 256], u: usize, v: usize)
    requires { Climbable grown.now.rank grown.now.up u v }
    ensures { Climbs grown.now.rank grown.now.up u v passed.old passed.new }
{
    let mut a = u;
    let mut b = v;
    while a != b {
        if grown.rank[b] < grown.rank[a] {
            passed[a] = true;
            a = usize::from(grown.up[a]);
        } else {
            passed[b] = true;
            b = usize::from(grown.up[b]);
        }
    }
}

// Which places hold a supply.
fn supplies(places: &[u8]) -> [bool; 256]
    requires { length places.now ≤ 256 }
    ensures { Supplies places.now (length places.now) result }
{
    let mut supplies = [false; 256];
    for (y, place) in places.iter().enumerate() {
        supplies[y] = *place == 1;
    }
    supplies
}

// Which places have a supply under them, themselves included.
#[inline(never)]
fn fed(places: &[u8], grown: &Forest, m: usize) -> [bool; 256]
    requires { Feedable (length places.now) grown.now.order grown.now.up grown.now.via m }
    ensures { Feeds places.now grown.now.order grown.now.up grown.now.via m result }
{
    let mut fed = supplies(places);
    for k in (0..places.len()).rev() {
        let x = usize::from(grown.order[k]);
        if usize::from(grown.via[x]) < m && fed[x] {
            fed[usize::from(grown.up[x])] = true;
        }
    }
    fed
}

// The kind of the run to a place.
fn kind_of(passed: bool, fed: bool) -> Kind
    ensures { Ruled passed fed result }
{
    match (passed, fed) {
        (true, _) => Kind::Bypassed,
        (false, true) => Kind::Supplied,
        (false, false) => Kind::Bare,
    }
}

// The kinds of the runs to n places, and bypassed for the others.
#[inline(never)]
fn conclude(
    grown: &Forest,
    passed: &[bool; 256],
    fed: &[bool; 256],
    n: usize,
    m: usize,
) -> [Kind; 1024]
    requires { (n ≤ 256) × (m ≤ 1024) }
    ensures { Concluded grown.now.via passed.now fed.now n m result }
{
    let mut kinds = [Kind::Bypassed; 1024];
    for x in 0..n {
        let r = usize::from(grown.via[x]);
        if r < m {
            kinds[r] = kind_of(passed[x], fed[x]);
        }
    }
    kinds
}
