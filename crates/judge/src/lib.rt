// Judge: whether the sets of a tree satisfy a rule.
#![tactic(auto)]

ghost use Rattle.std.specs.Prelude.{◌≡◌, length, drop};
ghost use Rattle.rule_strip.specs.RuleStrip.{variables_of};
ghost use Rattle.rules.specs.Room.{room_of, Workable};
ghost use Rattle.rules.specs.Trees.{AcceptedTree};
ghost use Rattle.judge.specs.Judge.{judge_refusal, judged_of, ruling_judgement, judgement_for, workspace_for, JudgeClaim};

use refusals::Refusal;

pub mod numbers; // what C is told

// The refusals that are tested before anything is built.
fn judge_refusal(rule: &[u8], c: u64, room: usize, tree: &[u8]) -> Result<(), Refusal>
    ensures { result ≡ judge_refusal rule.now c room tree.now }
{
    let size = rule_strip::check_rule(rule)?;
    rules::room::work_refusal(size.variables, size.records, c, room)?;
    rules::trees::tree_refusal(tree, size.variables)
}

// The answer to an accepted rule strip, for which there is room, and an accepted tree: 14, or whether the last record's machine accepts it.
fn judge_accepted(rule: &[u8], c: usize, ws: &mut [u8], tree: &[u8]) -> Result<bool, Refusal>
    requires workable { Workable rule.now c (length ws.old) }
    requires accepted_tree { AcceptedTree tree.now (variables_of rule.now) }
    ensures value { result ≡ ruling_judgement (judged_of rule.now c tree.now) }
    ensures ws_unchanged { drop (room_of rule.now c) ws.new ≡ drop (room_of rule.now c) ws.old }
{
    let k = rules::build::build_rule(rule, c, ws)?;
    Ok(rules::read::satisfied(rule, c, ws, k, tree))
}

// Judge a tree against a rule with the state ceiling c: any bytes, any ceiling, any workspace. Whether the tree satisfies it, or what refuses.
pub fn judge(rule: &[u8], c: u64, ws: &mut [u8], tree: &[u8]) -> Result<bool, Refusal>
    ensures value { result ≡ judgement_for rule.now c (length ws.old) tree.now }
    ensures ws_after { ws.new ≡ workspace_for rule.now c ws.old tree.now }
    ensures judge_claim { JudgeClaim rule.now c (length ws.old) tree.now result }
{
    judge_refusal(rule, c, ws.len(), tree)?;
    // No `?` here: the workspace is cleared whatever the answer is.
    let answer = judge_accepted(rule, c as usize, ws, tree);
    rules::build::clear_work(rule, 0, c as usize, ws);
    answer
}
