// Clash: which of a rule's requirements clash.
#![tactic(auto)]

ghost use Rattle.std.specs.Prelude.{◌≡◌, ◌≤◌, length, drop, IfOk};
ghost use Rattle.rule_strip.specs.RuleStrip.{records_of};
ghost use Rattle.parts.specs.Parts.{parts_of};
ghost use Rattle.parts.specs.Listed.{Listed};
ghost use Rattle.trying.specs.Trying.{Triable};
ghost use Rattle.clash.specs.Clashes.{trial_room, parts_refusal, clash_refusal, refusal_in, clashing_list, clashed_of, clash_list_of};
ghost use Rattle.clash.specs.Clashes.{clash_workspace, ClashClaim};

use parts::Parts;
use refusals::{Reason, Refusal};
use trying::KeptParts;

pub mod numbers; // what C is told

// 28, for so many parts.
#[tactic(auto, unfolding(crate::specs::Clashes::parts_refusal))]
fn parts_refusal(count: usize) -> Result<(), Reason>
    ensures { result ≡ parts_refusal count }
{
    if 16 < count {
        return Err(Reason::Parts);
    }
    Ok(())
}

// The refusals that are tested before anything is built. The parts are found on the way.
fn clash_refusal(rule: &[u8], c: u64, room: usize) -> Result<Parts, Refusal>
    ensures refusal_value { refusal_in result ≡ clash_refusal rule.now c room }
    ensures listed { IfOk result (λ p. Listed (parts_of (records_of rule.now)) p.count p.numbers) }
{
    let size = rule_strip::check_rule(rule)?;
    rules::room::work_refusal(size.variables, size.records + 15, c, room)?;
    let parts = parts::find_parts(rule);
    parts_refusal(parts.count)?;
    Ok(parts)
}

// The answer to an accepted strip of few parts, for which there is room: 14 of the rule itself, 29, or what the trials come to.
#[tactic(auto, using(rules::proofs::Rules::rule_long))]
fn clash_accepted(rule: &[u8], c: usize, ws: &mut [u8], parts: &Parts) -> Result<KeptParts, Refusal>
    requires triable { Triable rule.now c (length ws.old) }
    requires listed { Listed (parts_of (records_of rule.now)) parts.now.count parts.now.numbers × (parts.now.count ≤ 16) }
    ensures value { result ≡ clashing_list (clashed_of rule.now c) }
    ensures ws_unchanged { drop (trial_room rule.now c) ws.new ≡ drop (trial_room rule.now c) ws.old }
{
    let machines = rules::build::build_records(rule, c, ws)?;
    if reading::satisfiable(machines.kept(rule_strip::count_of(rule) - 1)) {
        return Err(Refusal::Plain(Reason::Satisfiable));
    }
    let kept = trying::try_parts(rule, c, ws, &machines, parts)?;
    Ok(kept)
}

// Which parts of a rule that no assignment satisfies clash, with the state ceiling c: any bytes, any ceiling, any workspace. They are told by
// their record numbers.
pub fn clash(rule: &[u8], c: u64, ws: &mut [u8]) -> Result<KeptParts, Refusal>
    ensures value { result ≡ clash_list_of rule.now c (length ws.old) }
    ensures ws_after { ws.new ≡ clash_workspace rule.now c ws.old }
    ensures clash_claim { ClashClaim rule.now c (length ws.old) result }
{
    let parts = clash_refusal(rule, c, ws.len())?;
    // No `?` here: the workspace is cleared whatever the answer is.
    let kept = clash_accepted(rule, c as usize, ws, &parts);
    rules::build::clear_work(rule, 15, c as usize, ws);
    kept
}
