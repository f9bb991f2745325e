// What is read off the machine of a rule strip, once it is built.
ghost use Rattle.std.specs.Prelude.{◌≤◌, length};
ghost use Rattle.rule_strip.specs.RuleStrip.{variables_of};
ghost use Rattle.rules.specs.Building.{Decider, FoundFor, SaysOfTree};
ghost use Rattle.rules.specs.Room.{Workable};
ghost use Rattle.rules.specs.Trees.{AcceptedTree};

use records::Summary;
use search::Found;

// The earliest tree that satisfies the rule, if it has at most p positions.
#[tactic(auto, using(crate::proofs::Rules::rule_long))]
pub fn earliest(rule: &[u8], c: usize, ws: &[u8], k: Summary, p: u64) -> Found
    requires workable { Workable rule.now c (length ws.now) }
    requires decider { Decider rule.now c k ws.now }
    requires p_bound { p ≤ 255 }
    ensures { FoundFor rule.now c p k result }
{
    let s = layout::shape_for(rule_strip::variables_of(rule), c);
    let last = rule_strip::count_of(rule) - 1;
    reading::earliest(ws, s, last, k, p)
}

// Do the sets of the tree in a strip satisfy the rule?
#[tactic(auto, using(crate::proofs::Rules::rule_long))]
pub fn satisfied(rule: &[u8], c: usize, ws: &[u8], k: Summary, tree: &[u8]) -> bool
    requires workable { Workable rule.now c (length ws.now) }
    requires decider { Decider rule.now c k ws.now }
    requires accepted_tree { AcceptedTree tree.now (variables_of rule.now) }
    ensures { SaysOfTree rule.now c tree.now result }
{
    let s = layout::shape_for(rule_strip::variables_of(rule), c);
    let last = rule_strip::count_of(rule) - 1;
    reading::accepted(ws, s, last, k, tree)
}
