// Rule strips, written from records of 18 bits each.
ghost use Rattle.std.specs.Prelude.{◌≡◌, ◌*◌, ◌<◌, ◌≤◌, length};
ghost use Rattle.std.proofs.lemmas.List.Edits.{sets};
ghost use Rattle.rule_strip.specs.RuleStrip.{rule_bytes};
ghost use Rattle.rule_strip.specs.RuleWriting.{strip_of_rule, record_word, records_of_words, record_byte, StripRoom};

// A record as one number, as the writer takes it. The op is a number, since records of strips are written on as they were read.
pub fn record_word(op: usize, first: usize, second: usize) -> u64
    requires op_bound { op < 16 }
    requires first_bound { first < 128 }
    requires second_bound { second < 128 }
    ensures { result ≡ record_word (record { op = op; first = first; second = second }) }
{
    (op as u64) * 16384 + (first as u64) * 128 + second as u64
}

// A rule strip that was written: n and m, and how many bytes it takes.
#[derive(Clone, Copy, Debug, PartialEq, Eq)]
pub struct Written {
    pub variables: usize,
    pub records: usize,
    pub length: usize,
}

// Bits 8k to 8k + 7 of the records, one after the other: they lie in at most two records. Zeros stand after the last.
fn record_byte(words: &[u64], k: usize) -> u8
    requires few_words { length words.now ≤ 128 }
    requires k_bound { 8 * k < 18 * length words.now }
    ensures { result ≡ record_byte (length words.now) words.now k }
{
    let i = 8 * k / 18;
    let next = words.get(i + 1).copied().unwrap_or(0) % 262144;
    (((words[i] % 262144 * 262144 + next) >> (28 - 8 * k % 18)) % 256) as u8
}

// The strip of the records over n variables, at the front of out: the version and n, m, and the records.
pub fn write_rule(out: &mut [u8], n: usize, words: &[u64]) -> Written
    requires { StripRoom out.old (length words.now) }
    ensures strip { out.new ≡ sets out.old 0 (strip_of_rule n (records_of_words (length words.now) words.now)) }
    ensures written { result ≡ record { variables = n; records = length words.now; length = rule_bytes (length words.now) } }
{
    let m = words.len();
    let len = (16 + 18 * m + 7) / 8;
    out[0] = 16 + (n % 16) as u8;
    out[1] = m as u8;
    for k in 0..len - 2 {
        out[k + 2] = record_byte(words, k);
    }
    Written {
        variables: n,
        records: m,
        length: len,
    }
}
