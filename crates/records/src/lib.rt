// The machine of one record, from what is kept of its parts' machines, in the record's share of the workspace.
#![tactic(auto)]

mod complement; // the machine of "not" from its part's
pub mod decode; // a rule's record, as it is taken here

ghost use Rattle.std.specs.Prelude.{◌≡◌, ◌≤◌, ◌<◌, length, take, false};
ghost use Rattle.records.specs.Machine.{accept_by, accept_of};
ghost use Rattle.records.specs.Rule.{plan_of, is_not, Fits, SomeParts, Adds, Spared};
ghost use Rattle.layout.specs.Shape.{Shaped};
ghost use Rattle.table.specs.Succ.{looks_of};

use crate::complement::{copy_table, flipped};
use exploring::build_plan;
use layout::Shape;
use ops::Op;
use table::entries::cleared;
use table::plan::Plan;
use words::{has, meet, with_member};

// Does the state with this code accept, where a and b are the accepting states of the parts? A "not" is not explored.
fn accepts(kind: Op, a: u64, b: u64, x: u64) -> bool
    ensures { result ≡ accept_by kind a b x }
{
    match kind {
        Op::Subset => x == 0,
        Op::Single => x == 1,
        Op::Child1 => x == 2,
        Op::Child2 => x == 2,
        Op::Root => x == 1,
        Op::Not => false,
        Op::Or => has(a, (x / 64 % 64) as usize) || has(b, (x % 64) as usize),
        Op::And => has(a, (x / 64 % 64) as usize) && has(b, (x % 64) as usize),
        Op::Exists => meet(x, a),
    }
}

// The set of the accepting states, where the first codes are the states'.
fn accept_word(codes: &[u64; 64], count: usize, kind: Op, a: u64, b: u64) -> u64
    requires { (count ≤ 64) × (length codes.now ≡ 64) }
    ensures { result ≡ accept_of kind a b (take count codes.now) }
{
    let mut r: u64 = 0;
    for (i, code) in codes[..count].iter().enumerate() {
        if accepts(kind, a, b, *code) {
            r = with_member(r, i as u64);
        }
    }
    r
}

// A record of a rule: its kind, the numbers of the records that are its parts, and the weights of its variables' bits.
#[derive(Clone, Copy)]
pub struct Decoded {
    pub kind: Op,
    pub first: u8,
    pub second: u8,
    pub wx: u8,
    pub wy: u8,
}

// What is kept of one record's machine.
#[derive(Clone, Copy)]
pub struct Summary {
    pub count: u8,
    pub accept: u64,
    pub looks: u8,
}

// The bits that a record looks at, where its parts look at f and g.
fn looks_of(kind: Op, wx: usize, wy: usize, f: usize, g: usize) -> usize
    requires { (0 < wx) × (wx ≤ 128) }
    ensures { result ≡ looks_of kind wx wy f g }
{
    match kind {
        Op::Single => wx,
        Op::Root => wx,
        Op::Not => f,
        Op::Or => f | g,
        Op::And => f | g,
        Op::Exists => cleared(wx, f),
        _ => wx | wy,
    }
}

// The plan of record r, whose parts look at f and g.
fn plan_of(x: Decoded, r: usize, s: Shape, f: usize, g: usize) -> Plan
    requires shaped { Shaped s }
    requires first_bound { (x.first < 256) × (x.second < 256) × (r < 256) × (0 < x.wx) × (x.wx ≤ 128) }
    ensures { result ≡ plan_of x r s f g }
{
    let table1 = layout::share_at(s, x.first as usize);
    let table2 = layout::share_at(s, x.second as usize);
    let base = layout::share_at(s, r);
    let kind = x.kind;
    let wx = x.wx as usize;
    let wy = x.wy as usize;
    let looks = looks_of(kind, wx, wy, f, g);
    Plan {
        kind,
        table1,
        table2,
        wx,
        wy,
        shape: s,
        base,
        looks,
        look1: f,
        look2: g,
    }
}

// The machine of record r by exploring its states, from what is kept of its parts f and g; its count is above c where it has too many.
fn explore_next(ws: &mut [u8], x: Decoded, f: Summary, g: Summary, r: usize, s: Shape) -> Summary
    requires fits { Fits x r s (length ws.old) }
    requires kind_value { is_not x.kind ≡ false }
    requires some_parts { SomeParts x s f g ws.old }
    ensures adds { Adds x s r f g result ws.old ws.new }
    ensures spared { Spared s r ws.old ws.new }
{
    let c = s.ceiling;
    let p = plan_of(x, r, s, f.looks as usize, g.looks as usize);
    let b = build_plan(ws, p);
    let count = b.count;
    if c < count {
        return Summary {
            count: count as u8,
            accept: 0,
            looks: 0,
        };
    }
    let kind = x.kind;
    let accept = accept_word(&b.codes, count, kind, f.accept, g.accept);
    Summary {
        count: count as u8,
        accept,
        looks: p.looks as u8,
    }
}

// The machine of record r, a "not", from its part's: the table is copied, and the other states accept.
fn complement_next(ws: &mut [u8], x: Decoded, f: Summary, g: Summary, r: usize, s: Shape) -> Summary
    requires fits { Fits x r s (length ws.old) }
    requires kind_value { x.kind ≡ Op.Not }
    requires some_parts { SomeParts x s f g ws.old }
    ensures adds { Adds x s r f g result ws.old ws.new }
    ensures spared { Spared s r ws.old ws.new }
{
    let first = x.first as usize;
    let n = f.count as usize;
    let bits = f.looks as usize;
    let from = layout::share_at(s, first);
    let to = layout::share_at(s, r);
    copy_table(ws, from, to, s, bits, n);
    let accept = flipped(f.accept, n);
    Summary {
        count: f.count,
        accept,
        looks: f.looks,
    }
}

// The machine of record r, from what is kept of its parts f and g, into the record's share.
pub fn build_next(ws: &mut [u8], x: Decoded, f: Summary, g: Summary, r: usize, s: Shape) -> Summary
    requires fits { Fits x r s (length ws.old) }
    requires some_parts { SomeParts x s f g ws.old }
    ensures adds { Adds x s r f g result ws.old ws.new }
    ensures spared { Spared s r ws.old ws.new }
{
    let kind = x.kind;
    match kind {
        Op::Not => complement_next(ws, x, f, g, r, s),
        _ => explore_next(ws, x, f, g, r, s),
    }
}
