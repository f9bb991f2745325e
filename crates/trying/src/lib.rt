// The parts of a rule joined and tried, over the machines of its records.
#![tactic(auto)]

ghost use Rattle.std.specs.Prelude.{Ok, ◌≡◌, ◌+◌, ◌-◌, ◌≤◌, ◌<◌, length};
ghost use Rattle.rule_strip.specs.RuleStrip.{count_of, records_of};
ghost use Rattle.parts.specs.Parts.{parts_of};
ghost use Rattle.parts.specs.Listed.{Listed};
ghost use Rattle.building.specs.Build.{entry_of};
ghost use Rattle.rules.specs.Building.{ReachedBuilt};
ghost use Rattle.trying.specs.Trying.{Triable, SomeJoint, Confined};
ghost use Rattle.trying.specs.Trials.{TrialTells, JoinsKept, TriedAll, listed_too};

use crate::joint::{Made, join_part, join_rest};
use building::Machines;
use parts::Parts;
use refusals::OverCeiling;

pub mod joint; // the machine of two machines' conjunction, and those of parts, left to right

// Is part i dropped? Those not yet tried are joined to those kept, which are joined already, and some assignment must satisfy them all.
fn try_part(
    rule: &[u8],
    c: usize,
    ws: &mut [u8],
    machines: &Machines,
    parts: &Parts,
    i: usize,
    joined: Option<Made>,
) -> Result<bool, OverCeiling>
    requires triable { Triable rule.now c (length ws.old) }
    requires reached_built { ReachedBuilt rule.now c (entry_of machines.now) ws.old }
    requires listed { Listed (parts_of (records_of rule.now)) parts.now.count parts.now.numbers × (i < parts.now.count)
        × (parts.now.count ≤ 16) }
    requires some_joint { SomeJoint rule.now c ws.old (count_of rule.now + i - 1) (Ok joined) }
    ensures trial_tells { TrialTells rule.now c ws.old i joined result }
    ensures confined { Confined rule.now c (count_of rule.now + i) ws.old ws.new }
{
    let rest = join_rest(rule, c, ws, machines, parts, i + 1, Ok(joined))?;
    match rest {
        None => Ok(false),
        Some(made) => Ok(!reading::satisfiable(made.machine)),
    }
}

// Part i, which stays, joined to those kept, if a next trial asks for them.
fn join_kept(
    rule: &[u8],
    c: usize,
    ws: &mut [u8],
    machines: &Machines,
    parts: &Parts,
    i: usize,
    joined: Option<Made>,
) -> Result<Option<Made>, OverCeiling>
    requires triable { Triable rule.now c (length ws.old) }
    requires reached_built { ReachedBuilt rule.now c (entry_of machines.now) ws.old }
    requires listed { Listed (parts_of (records_of rule.now)) parts.now.count parts.now.numbers × (i < parts.now.count)
        × (parts.now.count ≤ 16) }
    requires some_joint { SomeJoint rule.now c ws.old (count_of rule.now + i - 1) (Ok joined) }
    ensures joins_kept { JoinsKept rule.now c ws.old i joined ws.new result }
    ensures confined { Confined rule.now c (count_of rule.now + i - 1) ws.old ws.new }
{
    if parts.count <= i + 1 {
        return Ok(joined);
    }
    let m = rule_strip::count_of(rule);
    let q = usize::from(parts.numbers[i]);
    Ok(Some(join_part(rule, c, ws, machines, Ok(joined), q, m + i - 1)?))
}

// The parts that are kept, by their records' numbers, at the front, and how many they are; zeros behind them.
#[derive(Clone, Copy)]
pub struct KeptParts {
    pub count: usize,
    pub parts: [u64; 16],
}

impl KeptParts {
    // One part more.
    fn put(&mut self, part: u64)
        requires { self.old.count < 16 }
        ensures { self.new ≡ listed_too self.old part }
    {
        self.parts[self.count] = part;
        self.count += 1;
    }
}

// The trials of the parts, in their order.
pub fn try_parts(
    rule: &[u8],
    c: usize,
    ws: &mut [u8],
    machines: &Machines,
    parts: &Parts,
) -> Result<KeptParts, OverCeiling>
    requires triable { Triable rule.now c (length ws.old) }
    requires reached_built { ReachedBuilt rule.now c (entry_of machines.now) ws.old }
    requires listed { Listed (parts_of (records_of rule.now)) parts.now.count parts.now.numbers × (parts.now.count ≤ 16) }
    ensures tried_all { TriedAll rule.now c result }
    ensures confined { Confined rule.now c 0 ws.old ws.new }
{
    let mut joined = None;
    let mut kept = KeptParts {
        count: 0,
        parts: [0; 16],
    };
    for i in 0..parts.count {
        let dropped = try_part(rule, c, ws, machines, parts, i, joined)?;
        if !dropped {
            kept.put(u64::from(parts.numbers[i]));
            joined = join_kept(rule, c, ws, machines, parts, i, joined)?;
        }
    }
    Ok(kept)
}
