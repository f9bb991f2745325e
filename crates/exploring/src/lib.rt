// The exploration of a record's states: one for every kind of record, which differ in the successor and the start.
#![tactic(auto)]

ghost use Rattle.std.specs.Prelude.{◌≡◌, ◌+◌, ◌≤◌, ◌<◌, [], ◌∷◌, length, set, take, IfSome};
ghost use Rattle.std.specs.Option.{unwrap_or};
ghost use Rattle.std.proofs.Math.Option.{some};
ghost use Rattle.exploring.specs.Explore.{DistinctCodes, insert, place_of, over, row, ring};
ghost use Rattle.exploring.specs.Filling.{Cell, Guided, listed, Noted, Visitable, Visited, Explored};
ghost use Rattle.layout.specs.Shape.{labels_in, place_in, Each};
ghost use Rattle.table.specs.Rows.{Led, Serves};
ghost use Rattle.table.specs.Succ.{PlanRoom, Ranged, succ_in, start_of};
ghost use Rattle.logic.specs.Reach.{position};

use ops::Op;
use table::plan::Plan;
use table::rows::{Rows, exists_start, rows_of};

// The codes found so far, in the order of discovery: those below count, where count is at most the ceiling. A count above the
// ceiling says that there are too many.
#[derive(Clone, Copy)]
pub struct Builder {
    pub codes: [u64; 64],
    pub count: usize,
}

// Where x stands among the codes, if it does.
fn find(b: &Builder, x: u64) -> Option<usize>
    requires { b.now.count ≤ 64 }
    ensures { result ≡ place_of x (take b.now.count b.now.codes) }
{
    b.codes[..b.count].iter().position(|y| *y == x)
}

// The codes with x, which is new, put last; where there is no room for it, the count alone goes up.
fn put(b: Builder, x: u64, c: usize) -> Builder
    requires count_le_c { (b.count ≤ c) × (c ≤ 64) }
    requires new { b.count ≤ position x (take b.count b.codes) }
    ensures { (b.count ≤ result.count) × (result.count ≤ c + 1) × (listed c result ≡ insert c x (take b.count b.codes)) }
{
    let mut r = b;
    if b.count < c {
        r.codes[b.count] = x;
    }
    r.count += 1;
    r
}

// Where x stands among the codes, none of which stands twice, if it does. What is kept for x among the hints is tried first: it may be
// any number, for it is held to the codes. For a new code the place is kept where it is going to be put.
fn locate(b: &Builder, x: u64, hints: &mut [u8; 256]) -> Option<usize>
    requires { (b.now.count ≤ 64) × DistinctCodes (take b.now.count b.now.codes) }
    ensures { result ≡ place_of x (take b.now.count b.now.codes) }
{
    let h = (x % 251) as usize;
    let g = usize::from(hints[h]);
    if g < b.count {
        if b.codes[g] == x {
            return Some(g);
        }
    }
    let at = find(b, x);
    hints[h] = at.unwrap_or(b.count) as u8;
    at
}

// The place of a code is written to the table, for states i and j and label l. Here and below the workspace, the plan and the hints stay
// parameters: a struct of two `&mut` would be no plainer, since it would have to be lent anew at each call, and this function takes no hints.
fn enter(ws: &mut [u8], p: Plan, l: usize, i: usize, j: usize, at: usize)
    requires plan_room { PlanRoom p (length ws.old) }
    requires l_bound { (l < labels_in p.shape) × (i < p.shape.ceiling) × (j < p.shape.ceiling) × (at < 256) }
    ensures { ws.new ≡ set ws.old (p.base + place_in p.shape l (i ∷ j ∷ [])) at }
{
    let k = p.base + layout::place(p.shape, l, i, j);
    ws[k] = at as u8;
}

// The place of the code x is written to the table, for states i and j and label l: is x new? Nothing is done where there are too many
// codes.
fn note(
    ws: &mut [u8],
    p: Plan,
    b: &Builder,
    l: usize,
    i: usize,
    j: usize,
    x: u64,
    hints: &mut [u8; 256],
) -> bool
    requires plan_room { PlanRoom p (length ws.old) }
    requires l_bound { (l < labels_in p.shape) × (i < b.now.count) × (j < b.now.count) }
    requires distinct_codes { b.now.count ≤ p.shape.ceiling → DistinctCodes (take b.now.count b.now.codes) }
    ensures { Noted p b.now (over l i j) x result ws.old ws.new }
{
    if p.shape.ceiling < b.count {
        return false;
    }
    let at = locate(b, x, hints);
    enter(ws, p, l, i, j, at.unwrap_or(b.count));
    at.is_none()
}

// The pairs of state k with those up to k, both ways, under label l, whose successors the rows have: those before the first that leads to a
// new code have their entries then. Which it is, if there is one. So a label that finds nothing new, as most do, needs the builder lent, and
// no copy of it.
fn enter_known(
    ws: &mut [u8],
    p: Plan,
    b: &Builder,
    l: usize,
    k: usize,
    rows: &Rows,
    hints: &mut [u8; 256],
) -> Option<usize>
    requires plan_room { PlanRoom p (length ws.old) }
    requires visitable { Visitable p b.now l k }
    requires serves { Serves (succ_in ws.old p) l b.now.codes k rows.now.left rows.now.right }
    ensures upper_bound { IfSome result (λ n. n ≤ k) }
    ensures visited { Visited (succ_in ws.old p) p (row l k (unwrap_or result (k + 1))) b.now b.now ws.old ws.new }
{
    for i in 0..=k {
        let Some(at) = locate(b, rows.right[i], hints) else {
            return Some(i);
        };
        let Some(to) = locate(b, rows.left[i], hints) else {
            return Some(i);
        };
        enter(ws, p, l, i, k, at);
        enter(ws, p, l, k, i, to);
    }
    None
}

// The pairs of state k with those up to k, both ways, under label l, whose successors the rows have. Those before pair n have their entries.
// The builder is passed on for a new code alone.
fn visit_pairs(
    ws: &mut [u8],
    p: Plan,
    b: Builder,
    l: usize,
    k: usize,
    n: usize,
    rows: &Rows,
    hints: &mut [u8; 256],
) -> Builder
    requires plan_room { PlanRoom p (length ws.old) }
    requires visitable { Visitable p b l k × (n ≤ k) }
    requires each { Each (Cell (succ_in ws.old p) p (listed p.shape.ceiling b) ws.old) (row l k n) }
    requires serves { Serves (succ_in ws.old p) l b.codes k rows.now.left rows.now.right }
    ensures { Visited (succ_in ws.old p) p (row l k (k + 1)) b result ws.old ws.new }
{
    let c = p.shape.ceiling;
    let mut r = b;
    for i in n..=k {
        let x = rows.right[i];
        if note(ws, p, &r, l, i, k, x, hints) {
            r = put(r, x, c);
        }
        let y = rows.left[i];
        if note(ws, p, &r, l, k, i, y, hints) {
            r = put(r, y, c);
        }
    }
    r
}

// The pairs of state k with those up to k, both ways, under every label: there is nothing to do for a label that the record does not
// tell from an earlier one. The builder is passed on for a label with a new code alone. The rows may hold anything.
fn visit_ring(
    ws: &mut [u8],
    p: Plan,
    b: Builder,
    k: usize,
    rows: &mut Rows,
    hints: &mut [u8; 256],
) -> Builder
    requires plan_room { PlanRoom p (length ws.old) }
    requires k_lt_count { (k < b.count) × (b.count ≤ p.shape.ceiling) }
    requires guided { Guided (take p.base ws.old) p (listed p.shape.ceiling b) }
    ensures { Visited (succ_in ws.old p) p (ring k (labels_in p.shape)) b result ws.old ws.new }
{
    let mut r = b;
    for l in 0..layout::labels(p.shape) {
        if p.shape.ceiling < r.count {
            return r;
        }
        if l <= l & p.looks {
            rows_of(&ws[..p.base], p, l, &r.codes, k, rows);
            if let Some(n) = enter_known(ws, p, &r, l, k, rows, hints) {
                r = visit_pairs(ws, p, r, l, k, n, rows, hints);
            }
        }
    }
    r
}

// The machine of a plan, from its start code: its codes, and its table in the plan's share of the workspace.
fn build(ws: &mut [u8], p: Plan, start: u64) -> Builder
    requires plan_room { PlanRoom p (length ws.old) }
    requires guided { Guided (take p.base ws.old) p (some (start ∷ [])) }
    ensures { Explored (succ_in ws.old p) p start result ws.old ws.new }
{
    let mut hints = [0; 256];
    let mut rows = Rows {
        left: [0; 64],
        right: [0; 64],
    };
    let mut b = Builder {
        codes: [start; 64],
        count: 1,
    };
    let mut k = 0;
    // A `while`, since its bound moves: a turn may find more states.
    while k < b.count {
        if p.shape.ceiling < b.count {
            return b;
        }
        b = visit_ring(ws, p, b, k, &mut rows, &mut hints);
        k += 1;
    }
    b
}

// The start code by the kind of record.
fn start_code(low: &[u8], p: Plan) -> u64
    requires ranged { Ranged p }
    requires led { Led low.now p }
    ensures { result ≡ start_of low.now p }
{
    match p.kind {
        Op::Exists => exists_start(low, p),
        _ => 0,
    }
}

// The machine of a plan.
pub fn build_plan(ws: &mut [u8], p: Plan) -> Builder
    requires plan_room { PlanRoom p (length ws.old) }
    requires led { Led (take p.base ws.old) p }
    ensures { Explored (succ_in ws.old p) p (start_of (take p.base ws.old) p) result ws.old ws.new }
{
    let start = start_code(&ws[..p.base], p);
    build(ws, p, start)
}
