// The machines of a rule's records, those that are reached from the last one, in strip order.
#![tactic(auto)]

ghost use Rattle.std.specs.Prelude.{◌≡◌, true, false, ℕ, ◌-◌, ◌≤◌, ◌<◌, length, get_or, drop};
ghost use Rattle.layout.specs.Shape.{share_at};
ghost use Rattle.records.specs.Rule.{no_decoded, SomeParts};
ghost use Rattle.building.specs.Named.{named_of, used_in, InOrder, marked, Marks, MarksClosed, marking, next_of};
ghost use Rattle.building.specs.OneRecord.{Buildable, Builds};
ghost use Rattle.building.specs.Build.{entry_of, entered, ended, MadeBy, Untouched};

use joining::record::build_joined;
use layout::Shape;
use ops::Op;
use records::{Decoded, Summary};
use refusals::OverCeiling;

// A mark for each record that x names.
fn mark_named(marks: &mut [bool; 129], x: Decoded)
    requires { (x.first < 128) × (x.second < 128) }
    ensures { marks.new ≡ marking (named_of x) marks.old }
{
    let a = usize::from(x.first);
    let b = usize::from(x.second);
    match x.kind {
        Op::Not | Op::Exists => {
            marks[a] = true;
        }
        Op::Or | Op::And => {
            marks[a] = true;
            marks[b] = true;
        }
        _ => {}
    }
}

// Which of the first m records are reached from the last of them. Whoever names a record comes after it, so one pass from the last down is
// enough.
pub fn reached(records: &[Decoded; 128], m: usize) -> [bool; 129]
    requires m_nonzero { (0 < m) × (m ≤ 128) }
    requires by_index { (r : ℕ) → r < m → InOrder (get_or records.now r no_decoded) r }
    ensures { Marks (used_in records.now m) m result }
{
    let mut marks = [false; 129];
    marks[m - 1] = true;
    for r in (0..m).rev() {
        if marks[r] {
            mark_named(&mut marks, records[r]);
        }
    }
    marks[m] = true;
    marks
}

// The first record from number r on, of m, that has a mark; m if there is none.
pub fn next_marked(marks: &[bool; 129], r: usize, m: usize) -> usize
    requires { (r ≤ m) × (m ≤ 128) × (marked marks.now m ≡ true) }
    ensures { result ≡ next_of (marked marks.now) r (m - r) }
{
    let mut i = r;
    // Not a `for`: the mark behind the last record, which `Marks` promises, ends the walk, so a range would leave an end that never comes.
    while !marks[i] {
        i += 1;
    }
    i
}

// What is kept of the machines: for each record its number of states, the set of its accepting states and the bits of the labels that it
// looks at. Bytes are less to set and to copy than words.
#[derive(Clone, Copy)]
pub struct Machines {
    pub counts: [u8; 128],
    pub accepts: [u64; 128],
    pub looks: [u8; 128],
}

impl Machines {
    // What is kept of record a's machine.
    pub fn kept(&self, a: usize) -> Summary
        requires { a < 128 }
        ensures { result ≡ entry_of self.now a }
    {
        Summary {
            count: self.counts[a],
            accept: self.accepts[a],
            looks: self.looks[a],
        }
    }

    // k is kept of record a's machine, written in place: a copy of all for each record takes longer than a small machine.
    fn keep(&mut self, a: usize, k: Summary)
        requires { a < 128 }
        ensures { self.new ≡ entered self.old a k }
    {
        self.counts[a] = k.count;
        self.accepts[a] = k.accept;
        self.looks[a] = k.looks;
    }
}

// Record r's machine, joined, from what is kept of its parts: into the record's share, and what is kept of it into its entries, unless too many
// states are built.
pub fn build_record(
    ws: &mut [u8],
    machines: &mut Machines,
    x: Decoded,
    r: usize,
    s: Shape,
) -> Result<(), OverCeiling>
    requires buildable { Buildable x r s (length ws.old) × (r < 128) }
    requires some_parts { SomeParts x s (entry_of machines.old x.first) (entry_of machines.old x.second) ws.old }
    ensures { Builds x s r (entry_of machines.old) (entry_of machines.new) ws.old ws.new result }
{
    let f = machines.kept(usize::from(x.first));
    let g = machines.kept(usize::from(x.second));
    let k = build_joined(ws, x, f, g, r, s);
    if s.ceiling < usize::from(k.count) {
        return Err(OverCeiling { at: r });
    }
    machines.keep(r, k);
    Ok(())
}

// The machines of the marked records, of the first m; whatever a marked one names has a mark.
pub fn build_marked(
    ws: &mut [u8],
    machines: &mut Machines,
    records: &[Decoded; 128],
    marks: &[bool; 129],
    m: usize,
    s: Shape,
) -> Result<(), OverCeiling>
    requires m_bound { m ≤ 128 }
    requires by_index { (r : ℕ) → r < m → Buildable (get_or records.now r no_decoded) r s (length ws.old) }
    requires m_value { (marked marks.now m ≡ true) × MarksClosed records.now marks.now m }
    ensures made_by { MadeBy (marked marks.now) records.now s m (ended machines.new result) ws.new }
    ensures ws_unchanged { drop (share_at s m) ws.new ≡ drop (share_at s m) ws.old }
    ensures untouched { Untouched (marked marks.now) s m ws.old ws.new }
    ensures by_index_2 { (a : ℕ) → marked marks.now a ≡ false → entry_of machines.new a ≡ entry_of machines.old a }
{
    let mut r = next_marked(marks, 0, m);
    // Not a `for`: the next number is what `next_marked` finds.
    while r < m {
        build_record(ws, machines, records[r], r, s)?;
        r = next_marked(marks, r + 1, m);
    }
    Ok(())
}

// The machines of the records that are reached from the last of the first m.
pub fn build_all(
    ws: &mut [u8],
    records: &[Decoded; 128],
    m: usize,
    s: Shape,
) -> Result<Machines, OverCeiling>
    requires m_nonzero { (0 < m) × (m ≤ 128) }
    requires by_index { (r : ℕ) → r < m → Buildable (get_or records.now r no_decoded) r s (length ws.old) }
    ensures made_by { MadeBy (used_in records.now m) records.now s m result ws.new }
    ensures ws_unchanged { drop (share_at s m) ws.new ≡ drop (share_at s m) ws.old }
    ensures untouched { Untouched (used_in records.now m) s m ws.old ws.new }
{
    let marks = reached(records, m);
    let mut machines = Machines {
        counts: [0; 128],
        accepts: [0; 128],
        looks: [0; 128],
    };
    build_marked(ws, &mut machines, records, &marks, m, s)?;
    Ok(machines)
}
