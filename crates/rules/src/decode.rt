// The records of an accepted rule strip, as the builder takes them.
ghost use Rattle.rule_strip.specs.RuleStrip.{AcceptedRule};
ghost use Rattle.rules.specs.Decoding.{DecodesTo};

use records::Decoded;
use records::decode::decoded;

// All records of the strip, which is accepted, so that none is refused here. There is no heap for a list as long as they are: entries past them
// are of no account.
#[tactic(auto, using(crate::proofs::Decodes::fields_byte))]
pub fn decode(s: &[u8], n: usize, m: usize) -> [Decoded; 128]
    requires { AcceptedRule s.now n m }
    ensures { DecodesTo s.now m result }
{
    let mut records = [decoded(0, 0, 0, 0); 128];
    for i in 0..m {
        let f = rule_strip::fields_at(s, 16 + 18 * i);
        records[i] = decoded(n, f.op, f.first, f.second);
    }
    records
}
