// The earliest accepted tree over a machine's table.
#![tactic(auto)]

ghost use Rattle.std.specs.Prelude.{◌≡◌, [], ◌∷◌, get_or, ℕ, ◌-◌, ◌<◌, ◌≤◌};
ghost use Rattle.layout.specs.Shape.{labels_in};
ghost use Rattle.words.specs.Word.{mem};
ghost use Rattle.logic.specs.Tree.{empty};
ghost use Rattle.logic.specs.Search.{nothing, any_below, rounds, search};
ghost use Rattle.table.specs.Entry.{step_in};
ghost use Rattle.table.specs.Whole.{machine_in, table_in, Whole};
ghost use Rattle.search.specs.Scan.{kept, Stepped, ReadyIn, Turn, Held, view_in, best_in, scan_second, scan_first, scan_label};
ghost use Rattle.search.specs.Rounds.{first_settled, settled_too, Ended};

use layout::Shape;
use table::entries::step_in;
use tree_strip::write::{Rank, Ranks};

// A machine's table: its shape, the bits of the labels that the machine looks at, and its entries.
#[derive(Clone, Copy)]
struct Table<'t> {
    shape: Shape,
    looks: usize,
    entries: &'t [u8],
}

// A candidate: its positions, its label and the ranks of its branches.
#[derive(Clone, Copy)]
struct Pick {
    size: u64,
    rank: Rank,
}

// The better of the best so far and a new candidate, of equals the first one met; one for a state that is settled already is none.
fn consider(best: Option<Pick>, old: bool, new: Pick) -> Option<Pick>
    ensures { result ≡ kept best old new }
{
    if old {
        return best;
    }
    match best {
        Some(pick) => {
            if new.size < pick.size {
                Some(new)
            } else {
                best
            }
        }
        None => Some(new),
    }
}

// The trees that are settled: their ranks, and of each the state that it comes to and its positions; and whether a state is that of one.
#[derive(Clone, Copy)]
struct Settled {
    ranks: Ranks,
    state: [u8; 64],
    size: [u64; 64],
    done: [bool; 64],
}

impl Settled {
    // The empty tree alone.
    fn first() -> Settled
        ensures { result ≡ first_settled }
    {
        let none = Rank {
            label: 0,
            first: 0,
            second: 0,
        };
        let mut done = [false; 64];
        done[0] = true;
        Settled {
            ranks: Ranks {
                nodes: [none; 64],
                count: 1,
            },
            state: [0; 64],
            size: [0; 64],
            done,
        }
    }

    // The state that the tree of a label and of two ranks comes to.
    fn step(&self, table: &Table, rank: Rank) -> usize
        requires { Stepped table.now.shape table.now.entries.now self.now.state rank }
        ensures { result ≡ step_in table.now.shape table.now.entries.now 0 table.now.looks rank.label
            (get_or self.now.state rank.first 0 ∷ get_or self.now.state rank.second 0 ∷ []) }
    {
        let i = usize::from(self.state[rank.first]);
        let j = usize::from(self.state[rank.second]);
        step_in(table.entries, table.shape, 0, table.looks, rank.label, i, j)
    }

    // One tree more, which comes to state q.
    fn add(&mut self, pick: Pick, q: usize)
        requires { (self.old.ranks.count < 64) × (q < 64) }
        ensures { self.new ≡ settled_too self.old pick q }
    {
        let n = self.ranks.count;
        self.ranks.nodes[n] = pick.rank;
        self.ranks.count = n + 1;
        self.state[n] = q as u8;
        self.size[n] = pick.size;
        self.done[q] = true;
    }
}

// The inner loop: the label l, the first branch of rank i, second branches of all ranks.
fn row(table: &Table, settled: &Settled, l: usize, i: usize, best: Option<Pick>) -> Option<Pick>
    requires scan_ready { ReadyIn table.now settled.now }
    requires turn { Turn table.now.shape settled.now.ranks.count l i }
    requires held { Held (view_in table.now settled.now) (best_in best) best }
    ensures { Held (view_in table.now settled.now)
        (scan_second (view_in table.now settled.now) l i settled.now.ranks.count (best_in best)) result }
{
    let mut b = best;
    for j in 0..settled.ranks.count {
        let rank = Rank {
            label: l,
            first: i,
            second: j,
        };
        let q = settled.step(table, rank);
        let size = settled.size[i] + settled.size[j] + 1;
        b = consider(b, settled.done[q], Pick { size, rank });
    }
    b
}

// The middle loop: the label l, first branches of all ranks.
fn rows(table: &Table, settled: &Settled, l: usize, best: Option<Pick>) -> Option<Pick>
    requires scan_ready { ReadyIn table.now settled.now }
    requires l_bound { l < labels_in table.now.shape }
    requires held { Held (view_in table.now settled.now) (best_in best) best }
    ensures { Held (view_in table.now settled.now)
        (scan_first (view_in table.now settled.now) settled.now.ranks.count l settled.now.ranks.count
        (best_in best)) result }
{
    let mut b = best;
    for i in 0..settled.ranks.count {
        b = row(table, settled, l, i, b);
    }
    b
}

// The outer loop: the labels with no bit but those that the record looks at. Any other has the steps of an earlier one.
fn scan(table: &Table, settled: &Settled) -> Option<Pick>
    requires { ReadyIn table.now settled.now }
    ensures { Held (view_in table.now settled.now)
        (scan_label (view_in table.now settled.now) settled.now.ranks.count (labels_in table.now.shape) nothing) result }
{
    let mut b = None;
    for l in 0..layout::labels(table.shape) {
        if l <= l & table.looks {
            b = rows(table, settled, l, b);
        }
    }
    b
}

// The earliest accepted tree: its positions, and the ranks of which it is the last.
#[derive(Clone, Copy)]
pub struct Earliest {
    pub positions: u64,
    pub ranks: Ranks,
}

// What the rounds found: no accepted tree, none within the place ceiling, or one that is shown.
#[derive(Clone, Copy)]
pub enum Found {
    None,
    Larger,
    Shown(Earliest),
}

// The rounds, from the empty tree on: each settles one state more.
fn settle(table: &Table, count: usize, accept: u64, p: u64) -> Found
    requires whole { Whole table.now.shape table.now.looks table.now.entries.now count }
    requires p_bound { p ≤ 255 }
    ensures { let m = machine_in table.now.shape table.now.looks table.now.entries.now accept in
        Ended (rounds (labels_in table.now.shape) m p (count - 1) (empty ∷ [])) result }
{
    let mut settled = Settled::first();
    for _n in 1..count {
        let Some(pick) = scan(table, &settled) else {
            return Found::None;
        };
        if p < pick.size {
            return Found::Larger;
        }
        let q = settled.step(table, pick.rank);
        settled.add(pick, q);
        if words::has(accept, q) {
            return Found::Shown(Earliest {
                positions: pick.size,
                ranks: settled.ranks,
            });
        }
    }
    Found::None
}

// Does a state below count accept?
pub fn satisfiable(accept: u64, count: usize) -> bool
    requires { count ≤ 64 }
    ensures { result ≡ any_below (λ (q : ℕ). mem q accept) count }
{
    (0..count).any(|q| words::has(accept, q))
}

// The earliest accepted tree of a table of `count` states, if it has at most p positions.
pub fn find(s: Shape, looks: usize, table: &[u8], count: usize, accept: u64, p: u64) -> Found
    requires whole { Whole s looks table.now count }
    requires p_bound { p ≤ 255 }
    ensures { Ended (search (labels_in s) (table_in s looks table.now accept count) p) result }
{
    if !satisfiable(accept, count) {
        return Found::None;
    }
    if words::has(accept, 0) {
        return Found::Shown(Earliest {
            positions: 0,
            ranks: Settled::first().ranks,
        });
    }
    let table = Table {
        shape: s,
        looks,
        entries: table,
    };
    settle(&table, count, accept, p)
}
