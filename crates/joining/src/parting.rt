// The classes of the states that behave alike. A class is split where the table leads two of its states to different classes; when no
// label tells any state from the first of its class, those that are together behave alike.
ghost use Rattle.std.specs.Prelude.{◌≡◌, ℕ, ◌+◌, ◌*◌, ◌≤◌, ◌<◌, length, MatchOption};
ghost use Rattle.layout.specs.Shape.{labels_in};
ghost use Rattle.layout.specs.Slots.{range_of, in_slots};
ghost use Rattle.joining.specs.Parting.{class_at, RowSpan, SplitBy, Same, Clean, LikeBelow, FirstUnlike};
ghost use Rattle.joining.specs.Machines.{step_in, PartsAt, PartsBy, RowIsClean, LabelIsClean, LabelsAreClean, IsSettled};

use crate::classes::Classes;
use crate::machine::Machine;

// The first of the n states with which the row leads to another class than the leading row does with the state's class.
fn unlike(table: &[u8], classes: &Classes, n: usize, row: usize, lead: usize) -> Option<usize>
    requires { (n ≤ 64) × (row + n ≤ length table.now) × (lead + n ≤ length table.now) }
    ensures { MatchOption result (LikeBelow classes.now.of table.now row lead n) (λ d. (d < n) × FirstUnlike classes.now.of table.now row lead d) }
{
    for d in 0..n {
        let x = usize::from(table[row + d]);
        let y = usize::from(table[lead + classes.leader(d)]);
        if x != y && classes.of[x % 64] != classes.of[y % 64] {
            return Some(d);
        }
    }
    None
}

// The class that goes by g, split by the class of the state at base + x * stride: each x of it goes by the first with the same.
fn split(classes: &mut Classes, table: &[u8], n: usize, g: usize, base: usize, stride: usize)
    requires { (n ≤ 64) × ((x : ℕ) → x < n → base + x * stride < length table.now) }
    ensures { SplitBy (λ x. class_at classes.old.of table.now (base + x * stride)) n g classes.old.of classes.new.of }
{
    let old = *classes;
    let mut seen = [64u8; 64];
    for x in 0..n {
        if old.leader(x) == g {
            let key = old.leader(usize::from(table[base + x * stride]) % 64);
            if seen[key] == 64 {
                seen[key] = x as u8;
            }
            classes.of[x] = seen[key];
        }
    }
}

// The class of the state at a place.
fn class_at(table: &[u8], classes: &Classes, place: usize) -> u8
    requires { place < length table.now }
    ensures { result ≡ class_at classes.now.of table.now place }
{
    classes.of[usize::from(table[place]) % 64]
}

// Under label l, the states a, b and d lead to another class than the first members of their classes. Going from those to these one slot
// after the other, the first step that leads to another class splits the class of the state in that slot.
fn part_at(classes: &mut Classes, machine: &Machine, l: usize, a: usize, b: usize, d: usize)
    requires row_span { RowSpan machine.now.shape machine.now.table.now machine.now.states l a b × (d < machine.now.states) }
    requires fact { Clean (step_in machine.now) classes.old.of l (in_slots machine.now.shape.branches a b d) → ⊥ }
    ensures refines { PartsAt machine.now l classes.old.of classes.new.of }
    ensures fact_2 { Same classes.old.of classes.new.of → ⊥ }
{
    let table = machine.table;
    let s = machine.shape;
    let n = machine.states;
    let g = classes.leader(a);
    let h = classes.leader(b);
    let c = s.ceiling;
    let here = class_at(table, classes, layout::slot_place(s, l, a, b, d));
    let first = class_at(table, classes, layout::slot_place(s, l, g, b, d));
    if here != first {
        let base = layout::slot_place(s, l, 0, b, d);
        split(
            classes,
            table,
            n,
            g,
            base,
            layout::range(s.branches, 1, c) * c,
        );
        return;
    }
    if first != class_at(table, classes, layout::slot_place(s, l, g, h, d)) {
        let base = layout::slot_place(s, l, g, 0, d);
        split(classes, table, n, h, base, c);
        return;
    }
    let base = layout::slot_place(s, l, g, h, 0);
    let last = classes.leader(d);
    split(classes, table, n, last, base, 1);
}

// Classes are split until the entries for label l and the states a and b in the first slots split none.
fn part_row(classes: &mut Classes, machine: &Machine, l: usize, a: usize, b: usize)
    requires { RowSpan machine.now.shape machine.now.table.now machine.now.states l a b }
    ensures refines { PartsAt machine.now l classes.old.of classes.new.of }
    ensures clean_row { RowIsClean machine.now classes.new.of l a b }
{
    let s = machine.shape;
    let n = machine.states;
    let row = layout::slot_place(s, l, a, b, 0);
    loop {
        let lead = layout::slot_place(s, l, classes.leader(a), classes.leader(b), 0);
        let Some(d) = unlike(machine.table, classes, n, row, lead) else {
            return;
        };
        // The remainder is d: with it nothing that depends on d is reckoned in the loop that finds d.
        part_at(classes, machine, l, a, b, d % n);
    }
}

// The same for each state in the second slot, once. The last comes first: states found later often follow those found earlier, and tell them
// apart.
fn part_plane(classes: &mut Classes, machine: &Machine, l: usize, a: usize)
    requires { (l < labels_in machine.now.shape) × (a < range_of machine.now.shape.branches 2 machine.now.states) }
    ensures refines { PartsAt machine.now l classes.old.of classes.new.of }
    ensures clean_row { Same classes.old.of classes.new.of → (b : ℕ) → b < range_of machine.now.shape.branches 1 machine.now.states
        → RowIsClean machine.now classes.new.of l a b }
{
    for b in (0..layout::range(machine.shape.branches, 1, machine.states)).rev() {
        part_row(classes, machine, l, a, b);
    }
}

// The same for each state in the first slot, once.
fn sweep_label(classes: &mut Classes, machine: &Machine, l: usize)
    requires { l < labels_in machine.now.shape }
    ensures refines { PartsAt machine.now l classes.old.of classes.new.of }
    ensures clean_label { Same classes.old.of classes.new.of
        → LabelIsClean machine.now classes.new.of l }
{
    for a in (0..layout::range(machine.shape.branches, 2, machine.states)).rev() {
        part_plane(classes, machine, l, a);
    }
}

// Classes are split until label l splits none: a chain of states that one label tells apart, one after another, takes no round each.
fn part_label(classes: &mut Classes, machine: &Machine, l: usize)
    requires { l < labels_in machine.now.shape }
    ensures refines { PartsAt machine.now l classes.old.of classes.new.of }
    ensures clean_label { LabelIsClean machine.now classes.new.of l }
{
    loop {
        let before = classes.total();
        sweep_label(classes, machine, l);
        if classes.total() == before {
            return;
        }
    }
}

// A round: each label with no bit but those that the machine looks at, as long as a class has two states. Any other label has the steps of
// an earlier one.
fn round(classes: &mut Classes, machine: &Machine, looks: usize)
    ensures refines { PartsBy machine.now looks classes.old.of classes.new.of }
    ensures clean_by { Same classes.old.of classes.new.of → LabelsAreClean machine.now classes.new.of looks (labels_in machine.now.shape) }
{
    for l in 0..layout::labels(machine.shape) {
        if classes.all_single(machine.states) {
            return;
        }
        if l <= l & looks {
            part_label(classes, machine, l);
        }
    }
}

// The classes of the machine's states that behave alike: rounds until one splits none.
pub fn settled(machine: &Machine, looks: usize, accept: u64) -> Classes
    ensures { IsSettled machine.now looks accept result.of }
{
    let mut classes = Classes::by_acceptance(accept, machine.states);
    loop {
        let last = classes.total();
        round(&mut classes, machine, looks);
        if classes.total() == last {
            return classes;
        }
    }
}
