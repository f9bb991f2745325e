// What C is told of an imported text: include/ws2s.h, `ws2s_written` and `ws2s_fault`. Fields that do not apply are 0.
ghost use Rattle.std.specs.Prelude.{◌≡◌};
ghost use Rattle.import.specs.Numbers.{refused_text, written_numbers, fault_numbers};

use crate::TextFault;
use refusals::Reason;
use rule_strip::numbers::{WrittenNumbers, unwritten_rule, written_rule};
use rule_strip::write::Written;

pub fn written_numbers(r: Result<Written, Reason>) -> WrittenNumbers
    ensures { result ≡ written_numbers r }
{
    match r {
        Ok(written) => written_rule(written),
        Err(reason) => unwritten_rule(reason.number(), 0, 0),
    }
}

// The token at which a text's refusal lies: the byte place where it starts, and its bytes.
#[repr(C)]
#[derive(Clone, Copy)]
pub struct FaultNumbers {
    pub refusal: u64,
    pub start: u64,
    pub length: u64,
}

// A refusal by its number, whichever it is, and its token.
pub fn refused_text(refusal: u64, start: usize, length: usize) -> FaultNumbers
    ensures { result ≡ refused_text refusal start length }
{
    FaultNumbers {
        refusal,
        start: start as u64,
        length: length as u64,
    }
}

pub fn fault_numbers(r: Result<(), TextFault>) -> FaultNumbers
    ensures { result ≡ fault_numbers r }
{
    match r {
        Ok(()) => FaultNumbers {
            refusal: 0,
            start: 0,
            length: 0,
        },
        Err(fault) => refused_text(fault.reason.number(), fault.start, fault.length),
    }
}
