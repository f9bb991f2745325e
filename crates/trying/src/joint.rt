// Machines joined: the machine of a conjunction, from those of its two sides, in a share behind the records' own; and so the parts of a rule,
// left to right.
ghost use Rattle.std.specs.Prelude.{◌+◌, ◌-◌, ◌≤◌, ◌<◌, length};
ghost use Rattle.logic.specs.ReachedRecords.{ReachedRecord};
ghost use Rattle.rule_strip.specs.RuleStrip.{count_of, records_of};
ghost use Rattle.parts.specs.Parts.{parts_of};
ghost use Rattle.parts.specs.Listed.{Listed};
ghost use Rattle.records.specs.Rule.{Spared};
ghost use Rattle.building.specs.Build.{entry_of};
ghost use Rattle.rules.specs.Building.{rule_shape, ReachedBuilt};
ghost use Rattle.trying.specs.Trying.{Triable, SomePair, Conjoins, SomeJoint, Confined, JoinsPart, JoinsRest};

use building::Machines;
use joining::record::build_joined;
use ops::Op;
use parts::Parts;
use records::{Decoded, Summary};
use refusals::OverCeiling;

// A machine in the share of this number, and what is kept of it. What the functions take beside such machines, the rule, the ceiling and the
// workspace, is not one struct: `rules` and `clash` pass them apart too, each clause names them one by one, and the workspace alone is changed.
#[derive(Clone, Copy)]
pub struct Made {
    pub number: usize,
    pub machine: Summary,
}

// The machine of the conjunction of two machines that stand in their shares, with its states joined, into the share of number r; or the second
// one's number, where too many states are built.
pub fn join_pair(
    rule: &[u8],
    c: usize,
    ws: &mut [u8],
    first: Made,
    second: Made,
    r: usize,
) -> Result<Made, OverCeiling>
    requires triable { Triable rule.now c (length ws.old) }
    requires a_lt_r { (first.number < r) × (second.number < r) × (r < count_of rule.now + 15) }
    requires some_pair { SomePair rule.now c ws.old first second }
    ensures conjoins { Conjoins rule.now c ws.old first second ws.new r result }
    ensures spared { Spared (rule_shape rule.now c) r ws.old ws.new }
{
    let s = layout::shape_for(rule_strip::variables_of(rule), c);
    let x = Decoded {
        kind: Op::And,
        first: first.number as u8,
        second: second.number as u8,
        wx: 1,
        wy: 1,
    };
    let k = build_joined(ws, x, first.machine, second.machine, r, s);
    if c < usize::from(k.count) {
        return Err(OverCeiling { at: second.number });
    }
    Ok(Made {
        number: r,
        machine: k,
    })
}

// Record q joined to what is joined so far, if anything is, which stands before the share of number r, into that share. Of the first one
// nothing is made; and where a join went over before, that is the answer again.
pub fn join_part(
    rule: &[u8],
    c: usize,
    ws: &mut [u8],
    machines: &Machines,
    joined: Result<Option<Made>, OverCeiling>,
    q: usize,
    r: usize,
) -> Result<Made, OverCeiling>
    requires triable { Triable rule.now c (length ws.old) }
    requires reached_built { ReachedBuilt rule.now c (entry_of machines.now) ws.old }
    requires reached_record { ReachedRecord (records_of rule.now) q × (count_of rule.now ≤ r + 1) × (r < count_of rule.now + 15) }
    requires some_joint { SomeJoint rule.now c ws.old r joined }
    ensures joins_part { JoinsPart rule.now c ws.old r joined q ws.new result }
    ensures confined { Confined rule.now c r ws.old ws.new }
{
    let part = Made {
        number: q,
        machine: machines.kept(q),
    };
    match joined {
        Err(over) => Err(over),
        Ok(None) => Ok(part),
        Ok(Some(made)) => join_pair(rule, c, ws, made, part, r),
    }
}

// The parts from number i on joined to what is joined so far, left to right: part p goes into the share of number m + p - 1. Where a joining
// before them went over, that is the answer again.
pub fn join_rest(
    rule: &[u8],
    c: usize,
    ws: &mut [u8],
    machines: &Machines,
    parts: &Parts,
    i: usize,
    joined: Result<Option<Made>, OverCeiling>,
) -> Result<Option<Made>, OverCeiling>
    requires triable { Triable rule.now c (length ws.old) }
    requires reached_built { ReachedBuilt rule.now c (entry_of machines.now) ws.old }
    requires listed { Listed (parts_of (records_of rule.now)) parts.now.count parts.now.numbers × (i ≤ parts.now.count)
        × (parts.now.count ≤ 16) }
    requires some_joint { SomeJoint rule.now c ws.old (count_of rule.now + i - 1) joined }
    ensures joins_rest { JoinsRest rule.now c ws.old i joined ws.new result }
    ensures confined { Confined rule.now c (count_of rule.now + i - 1) ws.old ws.new }
{
    let m = rule_strip::count_of(rule);
    let mut all = joined?;
    for p in i..parts.count {
        let q = usize::from(parts.numbers[p]);
        all = Some(join_part(rule, c, ws, machines, Ok(all), q, m + p - 1)?);
    }
    Ok(all)
}
