// The classes numbered in the order of their first members.
ghost use Rattle.std.specs.Prelude.{◌≤◌};
ghost use Rattle.joining.specs.Rewriting.{Leaders};

use crate::classes::Classes;
use words::{has, with_member};

// The classes of so many states: how many, the first member of each, and the number of each state's.
#[derive(Clone, Copy)]
pub struct Numbered {
    pub states: usize,
    pub count: usize,
    pub first: [u8; 64],
    pub number: [u8; 64],
    pub ghost few: { states ≤ 64 },
    pub ghost leaders: { Leaders count states first },
}

impl Numbered {
    ghost use Rattle.std.specs.Prelude.{◌≡◌};
    ghost use Rattle.joining.specs.Numbering.{Numbers, accept_in};

    // The classes of the n states, numbered in the order of their first members.
    pub fn of(classes: &Classes, n: usize) -> Self
        requires { n ≤ 64 }
        ensures { Numbers n classes.now.of result }
    {
        let mut first = [0u8; 64];
        let mut number = [0u8; 64];
        let mut m = 0;
        for q in 0..n {
            let g = classes.leader(q);
            if g == q {
                first[m] = q as u8;
                number[q] = m as u8;
                m += 1;
            } else {
                number[q] = number[g];
            }
        }
        Numbered {
            states: n,
            count: m,
            first,
            number,
        }
    }

    // The classes whose first member is in a.
    pub fn accepting(&self, a: u64) -> u64
        ensures { result ≡ accept_in a self.now.count self.now.first }
    {
        let mut r: u64 = 0;
        for i in 0..self.count {
            if has(a, usize::from(self.first[i])) {
                r = with_member(r, i as u64);
            }
        }
        r
    }
}
