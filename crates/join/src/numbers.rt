// What C is told of two strips joined: include/ws2s.h, `ws2s_written`. Fields that do not apply are 0.
ghost use Rattle.std.specs.Prelude.{◌≡◌};
ghost use Rattle.join.specs.Numbers.{join_numbers};

use crate::JoinFault;
use rule_strip::numbers::{WrittenNumbers, unwritten_rule, written_rule};
use rule_strip::write::Written;

pub fn join_numbers(r: Result<Written, JoinFault>) -> WrittenNumbers
    ensures { result ≡ join_numbers r }
{
    match r {
        Ok(written) => written_rule(written),
        Err(fault) => {
            let x = refusals::refusal_numbers(fault.refusal);
            unwritten_rule(x.number, x.place, fault.strip)
        }
    }
}
