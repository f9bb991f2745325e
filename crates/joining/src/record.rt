// A record's machine, built and then joined.
ghost use Rattle.std.specs.Prelude.{length};
ghost use Rattle.records.specs.Rule.{Fits, SomeParts, Spared};
ghost use Rattle.joining.specs.Record.{AddsJoined};

use crate::join_states;
use layout::Shape;
use records::{Decoded, Summary, build_next};

// The machine of record r, from what is kept of its parts f and g, into the record's share, with its states joined. Where more than c states
// are built, its count is above c, and nothing is joined.
pub fn build_joined(
    ws: &mut [u8],
    x: Decoded,
    f: Summary,
    g: Summary,
    r: usize,
    s: Shape,
) -> Summary
    requires fits { Fits x r s (length ws.old) }
    requires some_parts { SomeParts x s f g ws.old }
    ensures adds_joined { AddsJoined x s r f g result ws.old ws.new }
    ensures spared { Spared s r ws.old ws.new }
{
    let k = build_next(ws, x, f, g, r, s);
    let c = s.ceiling;
    if c < k.count as usize {
        return k;
    }
    join_states(ws, s, r, k)
}
