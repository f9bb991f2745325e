// Rule strips, read and checked: document 01, "Strips" and "Check a rule strip".
#![tactic(auto)]

ghost use Rattle.std.specs.Prelude.{◌≡◌, not, ◌+◌, ◌*◌, ◌%◌, ◌<◌, ◌≤◌, length};
ghost use Rattle.bits.specs.Bits.{between};
ghost use Rattle.rule_strip.specs.RuleStrip.{variables_of, count_of, first_use, second_use, record_at, record_fault, head_fault};
ghost use Rattle.rule_strip.specs.RuleAnswers.{use_reason, limit_of, field_fault, fields_of, read_record, Filled, read_records, GoodHead, checked_rule};

use ops::Op;
use refusals::{Fault, Reason};

pub mod numbers; // what C is told
pub mod write; // written from records as numbers

// A record's three fields, as they stand in the strip: op is a number, since a strip may hold one that no op has.
#[derive(Clone, Copy)]
pub struct Fields {
    pub op: usize,
    pub first: usize,
    pub second: usize,
}

// A record that was read, and the bit place of the next one.
#[derive(Clone, Copy)]
struct Read {
    fields: Fields,
    next: usize,
}

// What an accepted rule strip has: n and m.
#[derive(Clone, Copy, Debug, PartialEq, Eq)]
pub struct RuleSize {
    pub variables: usize,
    pub records: usize,
}

// What a field of a record holds: a variable, an earlier record's number, or nothing.
#[derive(Clone, Copy)]
pub enum Use {
    Variable,
    Earlier,
    Unused,
}

// The uses of each op's two fields. The tables and the functions that read them are two: one function over both would take the table too,
// and so be no plainer where it is called.
const FIRST_USE: [Use; 9] = [
    Use::Variable,
    Use::Variable,
    Use::Variable,
    Use::Variable,
    Use::Variable,
    Use::Earlier,
    Use::Earlier,
    Use::Earlier,
    Use::Variable,
];

const SECOND_USE: [Use; 9] = [
    Use::Variable,
    Use::Unused,
    Use::Variable,
    Use::Variable,
    Use::Unused,
    Use::Unused,
    Use::Earlier,
    Use::Earlier,
    Use::Earlier,
];

// By number, and not by `Op`: the tables are indexed by it, and whoever asks has it out of a strip.
pub fn first_use(op: usize) -> Use
    requires { op < 9 }
    ensures { result ≡ first_use op }
{
    FIRST_USE[op]
}

pub fn second_use(op: usize) -> Use
    requires { op < 9 }
    ensures { result ≡ second_use op }
{
    SECOND_USE[op]
}

// The refusal of a field that does not fit its use.
fn use_refusal(held: Use) -> Reason
    ensures { result ≡ use_reason held }
{
    match held {
        Use::Variable => Reason::Variable,
        Use::Earlier => Reason::Record,
        Use::Unused => Reason::Unused,
    }
}

// What a field must be below. n, i and the bit place are passed one by one here and below: a struct of them would be made anew for each
// record and each of its fields.
fn limit(n: usize, i: usize, held: Use) -> usize
    ensures { result ≡ limit_of n i held }
{
    match held {
        Use::Variable => n,
        Use::Earlier => i,
        Use::Unused => 1,
    }
}

// What is amiss with a field that starts at a bit place.
fn field_fault(n: usize, i: usize, at: usize, held: Use, v: usize) -> Result<(), Fault>
    ensures { result ≡ field_fault n i at held v }
{
    if limit(n, i, held) <= v {
        return Err(Fault {
            reason: use_refusal(held),
            place: at as u64,
        });
    }
    Ok(())
}

// The refusals 7 to 10 of a record that starts at a bit place. Of no op does the second field have an earlier refusal than the first.
pub fn record_fault(n: usize, i: usize, at: usize, fields: Fields) -> Result<(), Fault>
    requires { at ≤ 32768 }
    ensures { result ≡ record_fault n i at (record { op = fields.op; first = fields.first; second = fields.second }) }
{
    let Ok(op) = Op::try_from(fields.op) else {
        return Err(Fault {
            reason: Reason::Op,
            place: at as u64,
        });
    };
    field_fault(n, i, at + 4, first_use(op.number()), fields.first)?;
    field_fault(n, i, at + 11, second_use(op.number()), fields.second)
}

// The fields of the record at a bit place: 18 bits that start at an even place lie in three bytes.
pub fn fields_at(s: &[u8], at: usize) -> Fields
    requires s_len_bound { length s.now ≤ 4096 }
    requires at_value { (at % 2 ≡ 0) × (at + 18 ≤ 8 * length s.now) }
    ensures { result ≡ fields_of (record_at s.now at) }
{
    let w = bits::three_bytes(s, at / 8) >> (6 - at % 8);
    Fields {
        op: (w / 16384 % 16) as usize,
        first: (w / 128 % 128) as usize,
        second: (w % 128) as usize,
    }
}

// Record number i, at a bit place.
fn read_record(s: &[u8], n: usize, i: usize, at: usize) -> Result<Read, Fault>
    requires s_len_bound { length s.now ≤ 4096 }
    requires at_value { (at % 2 ≡ 0) × (at + 18 ≤ 8 * length s.now) }
    ensures { result ≡ read_record s.now n i at }
{
    let fields = fields_at(s, at);
    record_fault(n, i, at, fields)?;
    Ok(Read {
        fields,
        next: at + 18,
    })
}

// All m records, in order: the last of them, or the earliest refusal.
fn read_records(s: &[u8], n: usize, m: usize) -> Result<Read, Fault>
    requires { Filled s.now m }
    ensures { result ≡ read_records s.now n m }
{
    let mut last = read_record(s, n, 0, 16);
    for i in 1..m {
        // `let .. else`, and no `?`: the form that is asked for where the reader's answer is taken apart.
        let Ok(read) = last else {
            return last;
        };
        last = read_record(s, n, i, read.next);
    }
    last
}

const MOST_VARIABLES: usize = 8;

const MOST_RECORDS: usize = 128;

// The refusals 1 to 5.
#[tactic(auto, using(std::proofs::lemmas::Bool::Decides::nat_tests), unfolding(crate::specs::RuleStrip::head_fault))]
fn head_fault(s: &[u8]) -> Result<(), Fault>
    ensures { result ≡ head_fault s.now }
{
    if s.len() < 2 {
        return Err(Fault {
            reason: Reason::RuleShort,
            place: bits::bit_length(s),
        });
    }
    if bits::field_at(s, 0, 4) != 1 {
        return Err(Fault {
            reason: Reason::RuleVersion,
            place: 0,
        });
    }
    let n = variables_of(s);
    if n < 1 || MOST_VARIABLES < n {
        return Err(Fault {
            reason: Reason::RuleVariables,
            place: 4,
        });
    }
    let m = count_of(s);
    if m < 1 || MOST_RECORDS < m {
        return Err(Fault {
            reason: Reason::RuleRecords,
            place: 8,
        });
    }
    let size = (16 + 18 * m + 7) / 8;
    if s.len() != size {
        let place = bits::bit_length(s);
        return Err(Fault {
            reason: Reason::RuleLength,
            place,
        });
    }
    Ok(())
}

// The refusals 6 to 10 of a strip with a good head, or n and m.
fn check_body(s: &[u8], n: usize, m: usize) -> Result<RuleSize, Fault>
    requires { GoodHead s.now n m }
    ensures { result ≡ checked_rule s.now }
{
    let end = 8 * s.len();
    let set = bits::first_set(s, 16 + 18 * m, end);
    if set < end {
        return Err(Fault {
            reason: Reason::RulePadding,
            place: set as u64,
        });
    }
    read_records(s, n, m)?;
    Ok(RuleSize {
        variables: n,
        records: m,
    })
}

// How many variables the strip says that it has, and how many records.
pub fn variables_of(s: &[u8]) -> usize
    requires { 2 ≤ length s.now }
    ensures { result ≡ variables_of s.now }
{
    bits::field_at(s, 4, 4) as usize
}

pub fn count_of(s: &[u8]) -> usize
    requires { 2 ≤ length s.now }
    ensures { result ≡ count_of s.now }
{
    bits::field_at(s, 8, 8) as usize
}

// Whether any bytes are a rule strip: the first refusal in document 01's order, with its place, or n and m.
pub fn check_rule(s: &[u8]) -> Result<RuleSize, Fault>
    ensures { result ≡ checked_rule s.now }
{
    head_fault(s)?;
    check_body(s, variables_of(s), count_of(s))
}
