// The successors of a new code and each code up to it, on either side. For "exists" they are unions: of the states that follow the new
// set and a single state.
ghost use Rattle.std.specs.Prelude.{true, ◌||◌, ◌≡◌, [], ◌∷◌, ℕ, ◌≤◌, ◌<◌, get_or};
ghost use Rattle.layout.specs.Shape.{labels_in};
ghost use Rattle.words.specs.Word.{Below, mem, any};
ghost use Rattle.table.specs.Rows.{Inside, Readable, RowsReady, hit_column, union_of, Follows, Serves, UnionsUpTo};
ghost use Rattle.table.specs.Succ.{atom_code, tabled, hit, hit_row, hit_set, pair_code, exists_code, exists_start};
ghost use Rattle.table.specs.Succ.{first_step, second_step, successor_of, Ranged};

use crate::atoms::rule_at;
use crate::entries::{cleared, entry_at, entry_within};
use crate::plan::Plan;
use layout::Shape;
use ops::Op;
use words::{each_member, union, with_member};

// What a code, or a state, has with each other one before it and after it: two words for each.
#[derive(Drop)]
pub struct Rows {
    pub left: [u64; 64],
    pub right: [u64; 64],
}

// The steps of the part of an "exists" under two labels, with the bound bit cleared and set: its table starts at `table`.
#[derive(Clone, Copy)]
struct Steps<'a> {
    low: &'a [u8],
    shape: Shape,
    table: usize,
    off: usize,
    on: usize,
    ghost readable: { Readable shape low.now table off on },
}

// At a state t, the states that follow a member of a set and t, and those that follow t and a member.
#[derive(Clone, Copy)]
struct Both {
    pub left: u64,
    pub right: u64,
}

impl<'a> Steps<'a> {
    ghost use Rattle.table.specs.Stepping.{entries};

    // The set s with the states that follow states i and j.
    fn with_steps(&self, i: usize, j: usize, s: u64) -> u64
        requires { (i < self.now.shape.ceiling) × (j < self.now.shape.ceiling) }
        ensures { (q : ℕ) → mem q result
            ≡ (mem q s || hit (entries self.now) self.now.off self.now.on q (i ∷ j ∷ [])) }
    {
        let r = with_member(
            s,
            entry_within(self.low, self.shape, self.table, self.off, i, j),
        );
        with_member(
            r,
            entry_within(self.low, self.shape, self.table, self.on, i, j),
        )
    }

    // The states that follow a member of s and state t, and t and a member.
    fn both_ways(&self, s: u64, t: usize) -> Both
        requires { Below self.now.shape.ceiling s × (t < self.now.shape.ceiling) }
        ensures left { (q : ℕ) → mem q result.left ≡ any (hit_column (entries self.now) self.now.off self.now.on s q t) 64 }
        ensures right { (q : ℕ) → mem q result.right ≡ any (hit_row (entries self.now) self.now.off self.now.on s q t) 64 }
    {
        let mut left = 0;
        let mut right = 0;
        for i in each_member(s) {
            left = self.with_steps(i, t, left);
            right = self.with_steps(t, i, right);
        }
        Both { left, right }
    }

    // What follows the set s and each member of `seen`, on either side.
    fn fill(&self, s: u64, seen: u64, rows: &mut Rows)
        requires { Below self.now.shape.ceiling s × Below self.now.shape.ceiling seen }
        ensures { (t : ℕ) → mem t seen ≡ true
            → Follows (entries self.now) self.now.off self.now.on s t rows.new.left rows.new.right }
    {
        for t in each_member(seen) {
            let b = self.both_ways(s, t);
            rows.left[t] = b.left;
            rows.right[t] = b.right;
        }
    }

    // The states that follow two members of s.
    fn followers(&self, s: u64) -> u64
        requires { Below self.now.shape.ceiling s }
        ensures { (q : ℕ) → mem q result ≡ any (hit_set (entries self.now) self.now.off self.now.on s s q) 64 }
    {
        let mut r = 0;
        for t in each_member(s) {
            r = union(r, self.both_ways(s, t).right);
        }
        r
    }
}

// The union of the first n sets.
fn joined(sets: &[u64; 64], n: usize) -> u64
    requires { n ≤ 64 }
    ensures { (q : ℕ) → mem q result ≡ any (λ (i : ℕ). mem q (get_or sets.now i 0)) n }
{
    let mut r = 0;
    for s in &sets[..n] {
        r = union(r, *s);
    }
    r
}

// The union of what a row has at the members of s.
fn union_of(row: &[u64; 64], s: u64) -> u64
    ensures { result ≡ union_of row.now s }
{
    let mut r = 0;
    for t in each_member(s) {
        r = union(r, row[t]);
    }
    r
}

// The unions for each set up to k.
fn unions(single: &Rows, sets: &[u64; 64], k: usize, rows: &mut Rows)
    requires k_bound { k < 64 }
    ensures { UnionsUpTo k single.now.left single.now.right sets.now rows.new.left rows.new.right }
{
    for i in 0..=k {
        let z = sets[i];
        rows.left[i] = union_of(&single.left, z);
        rows.right[i] = union_of(&single.right, z);
    }
}

// The start for "exists": the smallest set that holds state 0 and is closed under nodes with label 0 and any bound bit. It grows until it
// is closed.
pub fn exists_start(low: &[u8], p: Plan) -> u64
    requires ranged { Ranged p }
    requires by_index { (n : ℕ) × Inside low.now p n }
    ensures { result ≡ exists_start p.shape.branches (first_step low.now p) p.wx }
{
    let steps = Steps {
        low,
        shape: p.shape,
        table: p.table1,
        off: 0,
        on: p.wx & p.look1,
    };
    let mut s = 1;
    for _d in 0..64usize {
        let t = union(s, steps.followers(s));
        if t == s {
            return s;
        }
        s = t;
    }
    s
}

// The successors for "exists".
fn exists_rows(low: &[u8], p: &Plan, l: usize, sets: &[u64; 64], k: usize, rows: &mut Rows)
    requires { RowsReady p.now.shape low.now p.now.table1 p.now.wx l sets.now k }
    ensures { Serves (exists_code (first_step low.now p.now) p.now.wx) l sets.now k rows.new.left rows.new.right }
{
    let off = cleared(p.wx, l);
    let on = off + p.wx;
    let steps = Steps {
        low,
        shape: p.shape,
        table: p.table1,
        off: off & p.look1,
        on: on & p.look1,
    };
    let mut single = Rows {
        left: [0; 64],
        right: [0; 64],
    };
    steps.fill(sets[k], joined(sets, k + 1), &mut single);
    unions(&single, sets, k, rows)
}

// The successor for "and" and "or", of one pair.
fn pair_code(low: &[u8], p: &Plan, l: usize, x: u64, y: u64) -> u64
    requires { Ranged p.now × (l < 256) }
    ensures { result ≡ pair_code (first_step low.now p.now) (second_step low.now p.now) l (x ∷ y ∷ []) }
{
    let first = entry_at(
        low,
        p.shape,
        p.table1,
        l & p.look1,
        (x / 64 % 64) as usize,
        (y / 64 % 64) as usize,
    );
    let second = entry_at(
        low,
        p.shape,
        p.table2,
        l & p.look2,
        (x % 64) as usize,
        (y % 64) as usize,
    );
    first * 64 + second
}

// What `next` gives of code k and each code up to it, on either side.
fn fill_rows<F: Fn(u64, u64) -> u64>(codes: &[u64; 64], k: usize, rows: &mut Rows, next: F)
    requires k_bound { k < 64 }
    requires callable { F.IsAlwaysCallable next }
    ensures { (i : ℕ) → i ≤ k → F.post next (get_or codes.now i 0) (get_or codes.now k 0) (get_or rows.new.right i 0)
        × F.post next (get_or codes.now k 0) (get_or codes.now i 0) (get_or rows.new.left i 0) }
{
    let new = codes[k];
    for i in 0..=k {
        let old = codes[i];
        rows.right[i] = next(old, new);
        rows.left[i] = next(new, old);
    }
}

// The successors for "and" and "or".
fn pair_rows(low: &[u8], p: &Plan, l: usize, codes: &[u64; 64], k: usize, rows: &mut Rows)
    requires { Ranged p.now × (l < 256) × (k < 64) }
    ensures { Serves (pair_code (first_step low.now p.now) (second_step low.now p.now)) l codes.now k rows.new.left rows.new.right }
{
    fill_rows(codes, k, rows, |x, y| pair_code(low, p, l, x, y))
}

// The successors for an atom.
fn atom_rows(p: &Plan, l: usize, codes: &[u64; 64], k: usize, rows: &mut Rows)
    requires { Ranged p.now × (k < 64) }
    ensures { Serves (tabled (atom_code p.now.kind) p.now.wx p.now.wy) l codes.now k rows.new.left rows.new.right }
{
    let kind = p.kind;
    let bits = l / p.wx % 2 * 32 + l / p.wy % 2 * 16;
    fill_rows(
        codes,
        k,
        rows,
        |x, y| rule_at(kind, bits + (x % 4) as usize * 4 + (y % 4) as usize),
    )
}

// The successors of code k and each code up to it, on either side, under label l.
pub fn rows_of(low: &[u8], p: Plan, l: usize, codes: &[u64; 64], k: usize, rows: &mut Rows)
    requires ranged { Ranged p }
    requires l_bound { (l < labels_in p.shape) × (k < 64) }
    requires rows_ready { p.kind ≡ Op.Exists → RowsReady p.shape low.now p.table1 p.wx l codes.now k }
    ensures serves { Serves (successor_of low.now p) l codes.now k rows.new.left rows.new.right }
{
    match p.kind {
        Op::Exists => exists_rows(low, &p, l, codes, k, rows),
        Op::Or | Op::And => pair_rows(low, &p, l, codes, k, rows),
        _ => atom_rows(&p, l, codes, k, rows),
    }
}
