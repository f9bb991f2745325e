// A record of a rule as the builder takes it.
ghost use Rattle.std.specs.Prelude.{◌≡◌, ◌<◌, ◌≤◌};
ghost use Rattle.records.specs.Decode.{bit_weight, decoded_of};

use crate::Decoded;
use ops::Op;

// The weight of variable x's bit in an n-bit label; 1 for a number that is no variable.
fn weight_of(n: usize, x: usize) -> usize
    requires { n ≤ 8 }
    ensures { result ≡ bit_weight n x }
{
    if x < n {
        return 1 << (n - 1 - x);
    }
    1
}

// "exists" has its variable first and its record second; the builder takes the record first. A number that is no op makes a "subset".
pub fn decoded(n: usize, op: usize, first: usize, second: usize) -> Decoded
    requires { (n ≤ 8) × (first < 128) × (second < 128) }
    ensures { result ≡ decoded_of n (record { op = op; first = first; second = second }) }
{
    let kind = Op::try_from(op).unwrap_or(Op::Subset);
    let part = match kind {
        Op::Exists => second,
        _ => first,
    };
    Decoded {
        kind,
        first: part as u8,
        second: second as u8,
        wx: weight_of(n, first) as u8,
        wy: weight_of(n, second) as u8,
    }
}
