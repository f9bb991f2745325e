// The state that a machine's table comes to on the tree in a strip.
#![tactic(auto)]

ghost use Rattle.running.specs.Run.{Runnable, Came};

use layout::Shape;

// The state that a machine comes to, and the bit place after the tree.
#[derive(Clone, Copy)]
pub struct Ran {
    pub state: usize,
    pub next: usize,
}

// The state of the tree at a bit place. What belongs to the table is not one struct: `Runnable` and `Came` name its parts one by one, as
// `Whole` does, and a struct would be built for each call from outside and taken apart for `step_in`.
pub fn run(strip: &[u8], at: usize, s: Shape, looks: usize, table: &[u8], count: usize) -> Ran
    requires { Runnable strip.now at s looks table.now count }
    ensures { Came strip.now at s looks table.now count result }
{
    if bits::bit_at(strip, at) == 0 {
        return Ran {
            state: 0,
            next: at + 1,
        };
    }
    let n = s.variables;
    let label = bits::field_at(strip, at + 1, n) as usize;
    let first = run(strip, at + 1 + n, s, looks, table, count);
    let second = run(strip, first.next, s, looks, table, count);
    Ran {
        state: table::entries::step_in(table, s, 0, looks, label, first.state, second.state),
        next: second.next,
    }
}
