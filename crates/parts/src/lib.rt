// The parts of a rule, of which request A6 tries which ones clash.
#![tactic(auto)]

ghost use Rattle.std.specs.Prelude.{◌≡◌};
ghost use Rattle.refusals.specs.Fault.{sound};
ghost use Rattle.rule_strip.specs.RuleStrip.{records_of, rule_fault};
ghost use Rattle.parts.specs.Parts.{parts_of};
ghost use Rattle.parts.specs.Listed.{Listed};

use crate::stack::Stack;
use ops::Op;

mod stack; // of records still to take up

// The parts of a rule: their records' numbers at the front, in their order, and how many they are.
#[derive(Clone, Copy)]
pub struct Parts {
    pub numbers: [u8; 128],
    pub count: usize,
}

// The parts of an accepted rule strip. Each record is taken up once, however many ways lead to it: it is marked when it is taken off the
// stack, not when it is named, so that the first field's parts come first.
pub fn find_parts(rule: &[u8]) -> Parts
    requires { rule_fault rule.now ≡ sound }
    ensures { Listed (parts_of (records_of rule.now)) result.count result.numbers }
{
    let mut marks = [false; 128];
    let mut stack = Stack::new();
    stack.push(rule_strip::count_of(rule) - 1);
    let mut parts = Parts {
        numbers: [0; 128],
        count: 0,
    };
    while let Some(i) = stack.pop() {
        if marks[i] {
            continue;
        }
        marks[i] = true;
        let f = rule_strip::fields_at(rule, 16 + 18 * i);
        if f.op == Op::And.number() {
            stack.push_both(f.first, f.second);
        } else {
            parts.numbers[parts.count] = i as u8;
            parts.count += 1;
        }
    }
    parts
}
