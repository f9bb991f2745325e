// The machine of "not": the table of its part, copied, and the other states.
ghost use Rattle.std.specs.Prelude.{◌≡◌, ◌+◌, ◌≤◌, ◌<◌, length};
ghost use Rattle.layout.specs.Shape.{Shaped, labels_in, share_of};
ghost use Rattle.records.specs.Complement.{Rows, Entries, Copied};
ghost use Rattle.records.specs.Machine.{others_of};

use layout::Shape;
use words::{has, with_member};

// The entries for label l and the states below n are copied, from the table at from to the later one at to.
fn copy_label(ws: &mut [u8], from: usize, to: usize, s: Shape, l: usize, n: usize)
    requires shaped { Shaped s }
    requires l_bound { (l < labels_in s) × (n ≤ s.ceiling) × (from + share_of s ≤ to) × (to + share_of s ≤ length ws.old) }
    ensures { Copied (Rows s l n n) from to ws.old ws.new }
{
    for i in 0..n {
        let k = layout::place(s, l, i, 0);
        ws.copy_within(from + k..from + k + n, to + k);
    }
}

// The entries for the states below n are copied, at each label with no bit but those given: a table has no others.
pub fn copy_table(ws: &mut [u8], from: usize, to: usize, s: Shape, bits: usize, n: usize)
    requires shaped { Shaped s }
    requires n_le_ceiling { (n ≤ s.ceiling) × (from + share_of s ≤ to) × (to + share_of s ≤ length ws.old) }
    ensures { Copied (Entries s bits n (labels_in s)) from to ws.old ws.new }
{
    for l in 0..layout::labels(s) {
        if l <= l & bits {
            copy_label(ws, from, to, s, l, n);
        }
    }
}

// The states below n that are not in a.
pub fn flipped(a: u64, n: usize) -> u64
    requires { n ≤ 64 }
    ensures { result ≡ others_of a n }
{
    let mut r: u64 = 0;
    for i in 0..n {
        if !has(a, i) {
            r = with_member(r, i as u64);
        }
    }
    r
}
