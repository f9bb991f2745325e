// Two rule strips with agreed variable numbers, joined into one: request A7.
#![tactic(auto)]

ghost use Rattle.std.specs.Prelude.{◌≡◌, ◌+◌, ◌*◌, ◌≤◌, ◌<◌, length};
ghost use Rattle.std.proofs.lemmas.List.Edits.{sets};
ghost use Rattle.rule_strip.specs.RuleStrip.{count_of, record_at, records_of, rule_fault};
ghost use Rattle.rule_strip.specs.RuleWriting.{record_word, records_of_words};
ghost use Rattle.rule_strip.specs.declared.Use.{Use};
ghost use Rattle.refusals.specs.Fault.{sound};
ghost use Rattle.join.specs.JoinedRule.{moved_field, moved, joined_records};
ghost use Rattle.join.specs.Joining.{records_refusal, rule_out_refusal, size_refusal, counted, early_of, join_of, out_after_join, JoinClaim};
ghost use Rattle.join.specs.Joining.{joined_strip, written_of, Joinable, MovedWords};

use ops::Op;
use refusals::{Reason, Refusal};
use rule_strip::Use;
use rule_strip::write::Written;

pub mod numbers; // what C is told

// Why two strips are not joined, and which of them is at fault, 1 or 2, or 0 if neither is.
#[derive(Clone, Copy, Debug, PartialEq, Eq)]
pub struct JoinFault {
    pub refusal: Refusal,
    pub strip: u64,
}

// What is no strip's fault.
impl From<Refusal> for JoinFault {
    ghost from_gives = { λ r f. f ≡ record { refusal = r; strip = 0 } };

    fn from(refusal: Refusal) -> JoinFault {
        JoinFault { refusal, strip: 0 }
    }
}

// The refusal 30, for strips of so many records. Both are accepted, so there are few.
#[tactic(auto, unfolding(crate::specs::Joining::records_refusal))]
fn records_refusal(m: usize, p: usize) -> Result<(), Reason>
    requires { (m ≤ 128) × (p ≤ 128) }
    ensures { result ≡ records_refusal m p }
{
    if 128 < m + p + 1 {
        return Err(Reason::JoinedRecords);
    }
    Ok(())
}

// The refusal 27, for an out buffer of so many bytes.
#[tactic(auto, unfolding(crate::specs::Joining::rule_out_refusal))]
fn rule_out_refusal(room: usize) -> Result<(), Reason>
    ensures { result ≡ rule_out_refusal room }
{
    if room < 290 {
        return Err(Reason::RuleOut);
    }
    Ok(())
}

// 30, and then 27.
fn size_refusal(m: usize, p: usize, room: usize) -> Result<(), Refusal>
    requires { (m ≤ 128) × (p ≤ 128) }
    ensures { result ≡ size_refusal m p room }
{
    records_refusal(m, p)?;
    rule_out_refusal(room)?;
    Ok(())
}

// How many records a strip has, which is the first or the second.
fn records_in(s: &[u8], strip: u64) -> Result<usize, JoinFault>
    ensures { result ≡ counted s.now strip }
{
    match rule_strip::check_rule(s) {
        Ok(size) => Ok(size.records),
        Err(fault) => Err(JoinFault {
            refusal: Refusal::Placed(fault),
            strip,
        }),
    }
}

// What refuses before a byte is written.
fn join_refusal(first: &[u8], second: &[u8], room: usize) -> Result<(), JoinFault>
    ensures { result ≡ early_of first.now second.now room }
{
    let m = records_in(first, 1)?;
    let p = records_in(second, 2)?;
    size_refusal(m, p, room)?;
    Ok(())
}

// A field with a record's number in it moved up.
fn moved_field(up: usize, held: Use, v: usize) -> usize
    requires { (up ≤ 128) × (v < 128) }
    ensures { result ≡ moved_field up held v }
{
    match held {
        Use::Variable => v,
        Use::Earlier => up + v,
        Use::Unused => v,
    }
}

// The record number i of an accepted strip, with the record numbers in it moved up, as the writer takes it.
fn moved_word(s: &[u8], i: usize, up: usize) -> u64
    requires s_value { rule_fault s.now ≡ sound }
    requires i_bound { i < count_of s.now }
    requires s_bound { up + count_of s.now ≤ 128 }
    ensures { result ≡ record_word (moved up (record_at s.now (16 + 18 * i))) }
{
    let f = rule_strip::fields_at(s, 16 + 18 * i);
    let first = moved_field(up, rule_strip::first_use(f.op), f.first);
    let second = moved_field(up, rule_strip::second_use(f.op), f.second);
    rule_strip::write::record_word(f.op, first, second)
}

// All records of an accepted strip, so moved, over words.
fn put_moved(s: &[u8], up: usize, words: &mut [u64])
    requires s_value { rule_fault s.now ≡ sound }
    requires s_bound { up + count_of s.now ≤ 128 }
    requires words_len { length words.old ≡ count_of s.now }
    ensures { MovedWords s.now up words.new }
{
    for (i, word) in words.iter_mut().enumerate() {
        *word = moved_word(s, i, up);
    }
}

// The records of the joined rule, as the writer takes them, at the front of the array: that part of it.
#[tactic(auto, using(crate::proofs::Words::has_bytes, crate::proofs::Words::has_records))]
fn put_joined<'w>(first: &[u8], second: &[u8], words: &'w mut [u64; 128]) -> &'w [u64]
    requires { Joinable first.now second.now }
    ensures count { length result.now ≡ count_of first.now + count_of second.now + 1 }
    ensures records { records_of_words (length result.now) result.now ≡ joined_records (records_of first.now) (records_of second.now) }
{
    let m = rule_strip::count_of(first);
    let p = rule_strip::count_of(second);
    put_moved(first, 0, &mut words[..m]);
    put_moved(second, m, &mut words[m..m + p]);
    let last = m - 1;
    let moved_last = m + p - 1;
    words[m + p] = rule_strip::write::record_word(Op::And.number(), last, moved_last);
    &words[..m + p + 1]
}

// The joined rule of two accepted strips, over the front of out.
#[tactic(auto, using(crate::proofs::Words::has_bytes))]
fn write_joined(first: &[u8], second: &[u8], out: &mut [u8]) -> Written
    requires joinable { Joinable first.now second.now }
    requires in_bounds { 290 ≤ length out.old }
    ensures value { result ≡ written_of first.now second.now }
    ensures out_after { out.new ≡ sets out.old 0 (joined_strip first.now second.now) }
{
    let n = rule_strip::variables_of(first).max(rule_strip::variables_of(second));
    let mut words = [0; 128];
    let joined = put_joined(first, second, &mut words);
    rule_strip::write::write_rule(out, n, joined)
}

// The two rules as one, as a strip at the front of out: any bytes, any lengths.
pub fn join(first: &[u8], second: &[u8], out: &mut [u8]) -> Result<Written, JoinFault>
    ensures value { result ≡ join_of first.now second.now (length out.old) }
    ensures out_after { out.new ≡ out_after_join first.now second.now out.old }
    ensures join_claim { JoinClaim first.now second.now result out.new }
{
    join_refusal(first, second, out.len())?;
    Ok(write_joined(first, second, out))
}
