// What C is told of the parts that clash: include/ws2s.h, `ws2s_clash_list`. Fields that do not apply are 0.
ghost use Rattle.std.specs.Prelude.{◌≡◌};
ghost use Rattle.clash.specs.Numbers.{list_numbers, clash_numbers};

use refusals::{Refusal, RefusalNumbers, refusal_numbers};
use trying::KeptParts;

// kind: 0 kept, 3 refused; place is the bit place that a strip's refusal names.
#[repr(C)]
#[derive(Clone, Copy)]
pub struct ClashNumbers {
    pub kind: u64,
    pub refusal: u64,
    pub recordnumber: u64,
    pub place: u64,
    pub count: u64,
    pub parts: [u64; 16],
}

// A list of so many parts, refused or not, by the refusal's numbers, whichever they are.
pub fn list_numbers(refused: Option<RefusalNumbers>, count: u64, parts: [u64; 16]) -> ClashNumbers
    ensures { result ≡ list_numbers refused count parts }
{
    match refused {
        None => ClashNumbers {
            kind: 0,
            refusal: 0,
            recordnumber: 0,
            place: 0,
            count,
            parts,
        },
        Some(x) => ClashNumbers {
            kind: 3,
            refusal: x.number,
            recordnumber: x.recordnumber,
            place: x.place,
            count,
            parts,
        },
    }
}

pub fn clash_numbers(a: Result<KeptParts, Refusal>) -> ClashNumbers
    ensures { result ≡ clash_numbers a }
{
    match a {
        Ok(kept) => list_numbers(None, kept.count as u64, kept.parts),
        Err(r) => list_numbers(Some(refusal_numbers(r)), 0, [0; 16]),
    }
}
