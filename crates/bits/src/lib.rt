// Fields of bits in a byte slice, most significant first.
#![tactic(auto)]

ghost use Rattle.std.specs.Prelude.{◌≡◌, ◌++◌, ℕ, ◌+◌, ◌*◌, ◌<◌, ◌≤◌, length, get_or, set, drop, replicate};
ghost use Rattle.std.proofs.lemmas.List.Edits.{sets};
ghost use Rattle.std.proofs.Math.Seq.{slice};
ghost use Rattle.bits.specs.Bits.{bits, digits, field, first_set, bit_length};

// The bit at a place.
pub fn bit_at(s: &[u8], at: usize) -> u8
    requires { at < 8 * length s.now }
    ensures value { result ≡ get_or (bits s.now) at 0 }
    ensures upper_bound { result < 2 }
{
    (s[at / 8] >> (7 - at % 8)) % 2
}

// The place of the first set bit of those from one place up to another, or else that other place.
pub fn first_set(s: &[u8], from: usize, end: usize) -> usize
    requires { (from ≤ end) × (end ≤ 8 * length s.now) }
    ensures { result ≡ from + first_set (slice from end (bits s.now)) }
{
    for at in from..end {
        if bit_at(s, at) != 0 {
            return at;
        }
    }
    end
}

// The bit length of s, as a number of 64 bits: 2^64 - 1 stands for any more.
pub fn bit_length(s: &[u8]) -> u64
    ensures { result ≡ bit_length s.now }
{
    (s.len() as u64).saturating_mul(8)
}

// The bit at a place is made 1.
pub fn set_bit(d: &mut [u8], at: usize)
    requires { at < 8 * length d.old }
    ensures { bits d.new ≡ set (bits d.old) at 1 }
{
    d[at / 8] |= 1 << (7 - at % 8);
}

// The bit at a place that holds 0 is made x.
fn put_bit(d: &mut [u8], at: usize, x: u64)
    requires at_bound { at < 8 * length d.old }
    requires at_value { get_or (bits d.old) at 0 ≡ 0 }
    requires x_bound { x < 2 }
    ensures { bits d.new ≡ set (bits d.old) at x }
{
    if x == 1 {
        set_bit(d, at);
    }
}

// The b lowest bits of v are written at a place that holds zeros, most significant first.
pub fn put_field(d: &mut [u8], at: usize, b: usize, v: u64)
    requires b_bound { b ≤ 32 }
    requires d_len_bound { length d.old ≤ 4096 }
    requires b_bound_2 { at + b ≤ 8 * length d.old }
    requires by_index { (k : ℕ) → k < b → get_or (bits d.old) (at + k) 0 ≡ 0 }
    ensures { bits d.new ≡ sets (bits d.old) at (digits b v) }
{
    for k in 0..b {
        put_bit(d, at + k, (v >> (b - 1 - k)) % 2);
    }
}

// The field of b bits at a place, from a window of two bytes.
pub fn field_at(s: &[u8], at: usize, b: usize) -> u64
    requires b_bound { b ≤ 8 }
    requires b_bound_2 { at + b ≤ 8 * length s.now }
    requires at_bound { at < 8 * length s.now }
    ensures { result ≡ field s.now at b }
{
    let i = at / 8;
    let next = s.get(i + 1).copied().unwrap_or(0);
    ((u64::from(s[i]) * 256 + u64::from(next)) >> (16 - at % 8 - b)) % (1 << b)
}

// The 24 bits from byte i on, as a number.
pub fn three_bytes(s: &[u8], i: usize) -> u64
    requires { i + 3 ≤ length s.now }
    ensures { result ≡ field s.now (8 * i) 24 }
{
    u64::from(s[i]) * 65536 + (u64::from(s[i + 1]) * 256 + u64::from(s[i + 2]))
}

// The first n bytes are made 0.
pub fn clear(d: &mut [u8], n: usize)
    requires { n ≤ length d.old }
    ensures { d.new ≡ replicate n 0 ++ drop n d.old }
{
    d[..n].fill(0);
}
