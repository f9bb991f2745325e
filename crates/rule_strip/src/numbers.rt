// What C is told of rule strips, checked or written: include/ws2s.h, `ws2s_rule` and `ws2s_written`. Fields that do not apply are 0.
ghost use Rattle.std.specs.Prelude.{◌≡◌};
ghost use Rattle.rule_strip.specs.Numbers.{refused_rule, rule_numbers, written_rule, unwritten_rule};

use crate::RuleSize;
use crate::write::Written;
use refusals::Fault;

// place is the bit place that a refusal names.
#[repr(C)]
#[derive(Clone, Copy)]
pub struct RuleNumbers {
    pub refusal: u64,
    pub variables: u64,
    pub records: u64,
    pub place: u64,
}

// strip tells which of two strips is at fault, and place where; neither applies to a text.
#[repr(C)]
#[derive(Clone, Copy)]
pub struct WrittenNumbers {
    pub refusal: u64,
    pub variables: u64,
    pub records: u64,
    pub length: u64,
    pub place: u64,
    pub strip: u64,
}

// These are functions, and no `From`: the exports' clauses say `rule_numbers` and the like, and the code is plainer with the same word.
pub fn written_rule(w: Written) -> WrittenNumbers
    ensures { result ≡ written_rule w }
{
    WrittenNumbers {
        refusal: 0,
        variables: w.variables as u64,
        records: w.records as u64,
        length: w.length as u64,
        place: 0,
        strip: 0,
    }
}

pub fn unwritten_rule(refusal: u64, place: u64, strip: u64) -> WrittenNumbers
    ensures { result ≡ unwritten_rule refusal place strip }
{
    WrittenNumbers {
        refusal,
        variables: 0,
        records: 0,
        length: 0,
        place,
        strip,
    }
}

// A refusal by its number, whichever it is, and the bit place that it names.
pub fn refused_rule(number: u64, at: u64) -> RuleNumbers
    ensures { result ≡ refused_rule number at }
{
    RuleNumbers {
        refusal: number,
        variables: 0,
        records: 0,
        place: at,
    }
}

pub fn rule_numbers(r: Result<RuleSize, Fault>) -> RuleNumbers
    ensures { result ≡ rule_numbers r }
{
    match r {
        Ok(size) => RuleNumbers {
            refusal: 0,
            variables: size.variables as u64,
            records: size.records as u64,
            place: 0,
        },
        Err(fault) => refused_rule(fault.reason.number(), fault.place),
    }
}
