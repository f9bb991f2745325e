// The machines of an accepted rule strip, built in the workspace, of which the last one is to be read; and the workspace cleared.
ghost use Rattle.std.specs.Prelude.{◌≡◌, ◌+◌, ◌≤◌, length, drop};
ghost use Rattle.rule_strip.specs.RuleStrip.{variables_of, count_of};
ghost use Rattle.rules.specs.Building.{BuiltRecords, BuiltRule};
ghost use Rattle.rules.specs.Room.{room_for, room_of, cleared, Workable};

use crate::decode::decode;
use building::Machines;
use records::Summary;
use refusals::OverCeiling;

// The machines of the records that are reached, each in its own share. What lies past the shares stays as it was.
#[tactic(auto, using(crate::proofs::Rules::rule_long))]
pub fn build_records(rule: &[u8], c: usize, ws: &mut [u8]) -> Result<Machines, OverCeiling>
    requires { Workable rule.now c (length ws.old) }
    ensures built_records { BuiltRecords rule.now c result ws.new }
    ensures ws_unchanged { drop (room_of rule.now c) ws.new ≡ drop (room_of rule.now c) ws.old }
{
    let n = rule_strip::variables_of(rule);
    let m = rule_strip::count_of(rule);
    let records = decode(rule, n, m);
    building::build_all(ws, &records, m, layout::shape_for(n, c))
}

// The same, of which the last one's machine is to be read.
#[tactic(auto, using(crate::proofs::Rules::rule_long))]
pub fn build_rule(rule: &[u8], c: usize, ws: &mut [u8]) -> Result<Summary, OverCeiling>
    requires { Workable rule.now c (length ws.old) }
    ensures built_rule { BuiltRule rule.now c result ws.new }
    ensures ws_unchanged { drop (room_of rule.now c) ws.new ≡ drop (room_of rule.now c) ws.old }
{
    let machines = build_records(rule, c, ws)?;
    Ok(machines.kept(rule_strip::count_of(rule) - 1))
}

// The bytes that refusal 12 asks for are made 0: those of the strip's records and of so many more, where an operation builds more.
#[tactic(auto, using(crate::proofs::Rules::rule_long))]
pub fn clear_work(rule: &[u8], more: usize, c: usize, ws: &mut [u8])
    requires workable { Workable rule.now c (length ws.old) }
    requires more_bound { (more ≤ 15) × (room_for (variables_of rule.now) (count_of rule.now + more) c ≤ length ws.old) }
    ensures { ws.new ≡ cleared (room_for (variables_of rule.now) (count_of rule.now + more) c) ws.old }
{
    let n = rule_strip::variables_of(rule);
    let m = rule_strip::count_of(rule) + more;
    ws[..crate::room::needed(n, m, c)].fill(0);
}
