// What C is told of a judgement: include/ws2s.h, `ws2s_judgement`. Fields that do not apply are 0.
ghost use Rattle.std.specs.Prelude.{◌≡◌};
ghost use Rattle.judge.specs.Numbers.{refused_judgement, judgement_numbers};

use refusals::{Refusal, RefusalNumbers, refusal_numbers};

// kind: 0 no, 1 yes, 3 refused; place is the bit place that a strip's refusal names.
#[repr(C)]
#[derive(Clone, Copy)]
pub struct JudgementNumbers {
    pub kind: u64,
    pub refusal: u64,
    pub recordnumber: u64,
    pub place: u64,
}

// Refused, by the refusal's numbers, whichever they are.
pub fn refused_judgement(x: RefusalNumbers) -> JudgementNumbers
    ensures { result ≡ refused_judgement x }
{
    JudgementNumbers {
        kind: 3,
        refusal: x.number,
        recordnumber: x.recordnumber,
        place: x.place,
    }
}

pub fn judgement_numbers(j: Result<bool, Refusal>) -> JudgementNumbers
    ensures { result ≡ judgement_numbers j }
{
    match j {
        Ok(yes) => JudgementNumbers {
            kind: yes as u64,
            refusal: 0,
            recordnumber: 0,
            place: 0,
        },
        Err(r) => refused_judgement(refusal_numbers(r)),
    }
}
