// The entry points of the C interface, include/ws2s.h, over numbers and byte slices, as crate ws2s_c exports them. Each calls its operation,
// whose crate has the struct that is returned and its numbers.
ghost use Rattle.std.specs.Prelude.{◌≡◌, length};
ghost use Rattle.rule_strip.specs.RuleAnswers.{checked_rule};
ghost use Rattle.rule_strip.specs.Numbers.{rule_numbers, RuleRefusedAt};
ghost use Rattle.tree_strip.specs.TreeAnswers.{checked_tree};
ghost use Rattle.tree_strip.specs.Numbers.{tree_numbers, TreeRefusedAt};
ghost use Rattle.judge.specs.Judge.{judgement_for, workspace_for};
ghost use Rattle.judge.specs.Numbers.{judgement_numbers, JudgedInNumbers};
ghost use Rattle.decide.specs.Decide.{verdict_of, workspace_of, out_of};
ghost use Rattle.decide.specs.Numbers.{verdict_numbers, DecidedInNumbers, ShallowInNumbers};
ghost use Rattle.clash.specs.Clashes.{clash_list_of, clash_workspace};
ghost use Rattle.clash.specs.Numbers.{clash_numbers, ClashedInNumbers};
ghost use Rattle.text.specs.Grammar.{text_of};
ghost use Rattle.text.specs.Import.{import, out_after_import};
ghost use Rattle.import.specs.Answers.{imported_of, fault_of};
ghost use Rattle.import.specs.Numbers.{written_numbers, fault_numbers, ImportedInNumbers};
ghost use Rattle.join.specs.Joining.{join_of, out_after_join};
ghost use Rattle.join.specs.Numbers.{join_numbers, JoinedInNumbers};

use clash::numbers::{ClashNumbers, clash_numbers};
use decide::numbers::{VerdictNumbers, verdict_numbers};
use import::numbers::{FaultNumbers, fault_numbers, written_numbers};
use join::numbers::join_numbers;
use judge::numbers::{JudgementNumbers, judgement_numbers};
use rule_strip::numbers::{RuleNumbers, WrittenNumbers, rule_numbers};
use tree_strip::numbers::{TreeNumbers, tree_numbers};

// Whether any bytes are a rule strip.
pub fn ws2s_check_rule(rule: &[u8]) -> RuleNumbers
    ensures value { result ≡ rule_numbers (checked_rule rule.now) }
    ensures rule_refused_at { RuleRefusedAt rule.now result }
{
    rule_numbers(rule_strip::check_rule(rule))
}

// Whether any bytes are a tree strip.
pub fn ws2s_check_tree(tree: &[u8]) -> TreeNumbers
    ensures value { result ≡ tree_numbers (checked_tree tree.now) }
    ensures tree_refused_at { TreeRefusedAt tree.now result }
{
    tree_numbers(tree_strip::check::check_tree(tree))
}

// Whether the sets of a tree satisfy a rule, with the state ceiling c.
pub fn ws2s_judge(rule: &[u8], c: u64, workspace: &mut [u8], tree: &[u8]) -> JudgementNumbers
    ensures value { result ≡ judgement_numbers (judgement_for rule.now c (length workspace.old) tree.now) }
    ensures workspace_after { workspace.new ≡ workspace_for rule.now c workspace.old tree.now }
    ensures judged_in_numbers { JudgedInNumbers rule.now c (length workspace.old) tree.now result }
{
    judgement_numbers(judge::judge(rule, c, workspace, tree))
}

// Decide a rule, with the state ceiling c and the place ceiling p.
pub fn ws2s_decide(
    rule: &[u8],
    c: u64,
    p: u64,
    workspace: &mut [u8],
    out: &mut [u8],
) -> VerdictNumbers
    ensures value { result ≡ verdict_numbers (verdict_of rule.now c p (length workspace.old) (length out.old)) }
    ensures workspace_after { workspace.new ≡ workspace_of rule.now c p workspace.old (length out.old) }
    ensures out_after { out.new ≡ out_of rule.now c p (length workspace.old) out.old }
    ensures decided_in_numbers { DecidedInNumbers rule.now c p (length workspace.old) (length out.old) result out.new }
    ensures shallow_in_numbers { ShallowInNumbers c result out.new }
{
    verdict_numbers(decide::decide(rule, c, p, workspace, out))
}

// Which parts of a rule that no sets satisfy clash, with the state ceiling c.
pub fn ws2s_clash(rule: &[u8], c: u64, workspace: &mut [u8]) -> ClashNumbers
    ensures value { result ≡ clash_numbers (clash_list_of rule.now c (length workspace.old)) }
    ensures workspace_after { workspace.new ≡ clash_workspace rule.now c workspace.old }
    ensures clashed_in_numbers { ClashedInNumbers rule.now c (length workspace.old) result }
{
    clash_numbers(clash::clash(rule, c, workspace))
}

// The rule that a text says, written as a rule strip at the front of out.
pub fn ws2s_import(text: &[u8], out: &mut [u8]) -> WrittenNumbers
    ensures value { result ≡ written_numbers (imported_of (import text.now (length out.old))) }
    ensures out_after { out.new ≡ out_after_import (import text.now (length out.old)) out.old }
    ensures imported_in_numbers { ImportedInNumbers text.now result out.new }
{
    written_numbers(import::import_text(text, out))
}

// Why import refuses a text when out has room, and at which token.
pub fn ws2s_text_fault(text: &[u8]) -> FaultNumbers
    ensures { result ≡ fault_numbers (fault_of (text_of text.now)) }
{
    fault_numbers(import::text_fault(text))
}

// Two rules with agreed variable numbers, written as one rule strip at the front of out.
pub fn ws2s_join(first: &[u8], second: &[u8], out: &mut [u8]) -> WrittenNumbers
    ensures value { result ≡ join_numbers (join_of first.now second.now (length out.old)) }
    ensures out_after { out.new ≡ out_after_join first.now second.now out.old }
    ensures joined_in_numbers { JoinedInNumbers first.now second.now result out.new }
{
    join_numbers(join::join(first, second, out))
}
