// A forest over the unstruck runs of a form, grown place by place from the supplies first: each place is a root, or was reached from an earlier one.
#![tactic(auto)]

ghost use Rattle.std.specs.Prelude.{◌≡◌, ◌+◌, ◌≤◌, ◌<◌, length, set};
ghost use Rattle.pieces.specs.Holds.{at, Ended, Fits};
ghost use Rattle.forest.specs.Grown.{Grown};
ghost use Rattle.forest.specs.Parts.{order_at, Links, Far, Candidate, Ranked};

use layout::Run;

// The places in the order of growth; each place's rank in it, from 1 on; and the place and the run by which it was reached, run 1,024 for a root.
#[derive(Clone, Copy, Debug, PartialEq, Eq)]
pub struct Forest {
    pub order: [u16; 256],
    pub rank: [u16; 256],
    pub up: [u16; 256],
    pub via: [u16; 256],
}

impl Forest {
    // Puts place z into the order after as many as count, reached from p by run w.
    fn put(&mut self, count: usize, z: usize, p: usize, w: usize)
        requires { (count < 256) × (z < 256) × (p < 256) × (w ≤ 1024) }
        ensures { self.new ≡ record { order = set self.old.order count z; rank = set self.old.rank z (count + 1); up = set self.old.up z p; via = set self.old.via z w } }
    {
        self.order[count] = z as u16;
        self.rank[z] = (count + 1) as u16;
        self.up[z] = p as u16;
        self.via[z] = w as u16;
    }
}

// The unstruck runs at each place: entry 2r is run r at its end u, entry 2r + 1 at its end v. For each place its last entry, and for each entry the one
// before it at its place; one more than the entry, and 0 for none.
#[derive(Drop)]
struct Chains {
    head: [u16; 256],
    prev: [u16; 2048],
}

impl Chains {
    // Puts entry e after those of place y.
    fn put(&mut self, e: usize, y: usize)
        requires { (e < 2048) × (y < 256) }
        ensures { self.new ≡ record { head = set self.old.head y (e + 1); prev = set self.old.prev e (at self.old.head y) } }
    {
        self.prev[e] = self.head[y];
        self.head[y] = (e + 1) as u16;
    }
}

// Grows the forest: each candidate for a root that is not there yet, the supplies first; and from it on, at each place in the order of growth, the
// other ends of its entries.
pub fn grow(places: &[u8], runs: &[u8], states: &[u8; 1024], m: usize) -> Forest
    requires { Fits places.now runs.now m }
    ensures grown { Grown (order_at places.now runs.now states.now m) (at result.rank) (at result.up) (at result.via) }
    ensures ranked { Ranked (length places.now) result.order result.rank }
{
    let chains = link(runs, states, m);
    let mut forest = Forest {
        order: [0; 256],
        rank: [0; 256],
        up: [0; 256],
        via: [1024; 256],
    };
    let mut count = 0;
    let mut now = 0;
    for i in 0..2 * places.len() {
        if let Some(z) = candidate(places, &forest.rank, i) {
            forest.put(count, z, z, 1024);
            count += 1;
        }
        while now < count {
            let x = usize::from(forest.order[now]);
            now += 1;
            let mut c = usize::from(chains.head[x]);
            while 0 < c {
                let e = c - 1;
                let r = e / 2;
                let Run { u, v, .. } = layout::run_at(runs, r);
                let z = far(e, u, v);
                if forest.rank[z] == 0 {
                    forest.put(count, z, x, r);
                    count += 1;
                }
                c = usize::from(chains.prev[e]);
            }
        }
    }
    forest
}

// The chains of entries.
fn link(runs: &[u8], states: &[u8; 1024], m: usize) -> Chains
    requires { (m ≤ 1024) × Ended runs.now m }
    ensures { Links runs.now states.now m result.head result.prev }
{
    let mut chains = Chains {
        head: [0; 256],
        prev: [0; 2048],
    };
    for r in 0..m {
        if 0 < states[r] {
            let Run { u, v, .. } = layout::run_at(runs, r);
            chains.put(2 * r, u);
            chains.put(2 * r + 1, v);
        }
    }
    chains
}

// The other end of the run of an entry.
fn far(e: usize, u: usize, v: usize) -> usize
    ensures { Far e u v result }
{
    if e % 2 == 0 { v } else { u }
}

// The place that candidate i is, unless it is there already: each supply once, and then each place.
fn candidate(places: &[u8], rank: &[u16; 256], i: usize) -> Option<usize>
    requires { length places.now ≤ 256 }
    ensures { Candidate places.now rank.now i result }
{
    let n = places.len();
    if i < n {
        if places[i] == 1 && rank[i] == 0 {
            Some(i)
        } else {
            None
        }
    } else {
        let z = i - n;
        if z < n && rank[z] == 0 { Some(z) } else { None }
    }
}
