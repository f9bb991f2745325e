// What C is told of a verdict: include/ws2s.h, `ws2s_verdict`. Fields that do not apply are 0.
ghost use Rattle.std.specs.Prelude.{◌≡◌};
ghost use Rattle.decide.specs.Numbers.{refused_verdict, verdict_numbers};

use crate::Verdict;
use refusals::{Refusal, RefusalNumbers, refusal_numbers};

// kind: 0 shown, 1 none, 2 larger, 3 refused; place is the bit place that a strip's refusal names.
#[repr(C)]
#[derive(Clone, Copy)]
pub struct VerdictNumbers {
    pub kind: u64,
    pub refusal: u64,
    pub recordnumber: u64,
    pub positions: u64,
    pub states: u64,
    pub length: u64,
    pub place: u64,
}

// The numbers of none and larger.
fn without_tree(kind: u64, states: u64) -> VerdictNumbers
    ensures { result ≡ record { kind = kind; refusal = 0; recordnumber = 0; positions = 0; states = states; length = 0; place = 0 } }
{
    VerdictNumbers {
        kind,
        refusal: 0,
        recordnumber: 0,
        positions: 0,
        states,
        length: 0,
        place: 0,
    }
}

// Refused, by the refusal's numbers, whichever they are.
pub fn refused_verdict(x: RefusalNumbers) -> VerdictNumbers
    ensures { result ≡ refused_verdict x }
{
    VerdictNumbers {
        kind: 3,
        refusal: x.number,
        recordnumber: x.recordnumber,
        positions: 0,
        states: 0,
        length: 0,
        place: x.place,
    }
}

pub fn verdict_numbers(v: Result<Verdict, Refusal>) -> VerdictNumbers
    ensures { result ≡ verdict_numbers v }
{
    match v {
        Ok(
            Verdict::Shown {
                positions,
                states,
                length,
            },
        ) => VerdictNumbers {
            kind: 0,
            refusal: 0,
            recordnumber: 0,
            positions,
            states,
            length,
            place: 0,
        },
        Ok(Verdict::None(states)) => without_tree(1, states),
        Ok(Verdict::Larger(states)) => without_tree(2, states),
        Err(r) => refused_verdict(refusal_numbers(r)),
    }
}
