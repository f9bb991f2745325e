// Sets of states, numbers below 64, as 64-bit words.
#![tactic(auto)]

ghost use Rattle.std.specs.Prelude.{true, ◌||◌, ◌&&◌, ◌≡◌, ℕ, ◌%◌, ◌<◌, eqb, MatchOption};
ghost use Rattle.std.specs.Int.Count.{ones};
ghost use Rattle.std.specs.Iterator.{at_most};
ghost use Rattle.words.specs.Word.{mem, any, Smallest, Without};

// Is q a member of the set w?
pub fn has(w: u64, q: usize) -> bool
    requires { q < 64 }
    ensures { result ≡ mem q w }
{
    (w >> q) % 2 == 1
}

// The set x with e in it.
pub fn with_member(x: u64, e: u64) -> u64
    ensures { (q : ℕ) → mem q result ≡ (mem q x || eqb (e % 64) q) }
{
    x | (1 << (e % 64))
}

// The members of x and those of y.
pub fn union(x: u64, y: u64) -> u64
    ensures { (q : ℕ) → mem q result ≡ (mem q x || mem q y) }
{
    x | y
}

// How many members w has.
pub fn size(w: u64) -> usize
    ensures { result ≡ ones w }
{
    w.count_ones() as usize
}

// The smallest member of w, which has one.
pub fn smallest(w: u64) -> usize
    requires { 0 < w }
    ensures { Smallest w result }
{
    w.trailing_zeros() as usize
}

// The set w without its member q.
pub fn without(w: u64, q: usize) -> u64
    requires { (q < 64) × (mem q w ≡ true) }
    ensures { Without w q result }
{
    w - (1 << q)
}

// Have the sets x and y a common member?
pub fn meet(x: u64, y: u64) -> bool
    ensures { result ≡ any (λ (q : ℕ). mem q x && mem q y) 64 }
{
    (x & y) != 0
}

// A walk through the members of a set, smallest first: those that are left.
#[derive(Drop)]
pub struct Walk {
    pub rest: u64,
}

// The walk through the members of w.
pub fn each_member(w: u64) -> Walk
    ensures { result.rest ≡ w }
{
    Walk { rest: w }
}

impl Iterator for Walk {
    type Item = usize;

    ghost next_gives = { λ s r t. MatchOption r (s.rest ≡ 0) (λ q. Smallest s.rest q × Without s.rest q t.rest) };

    ghost remaining = { λ s. at_most (ones s.rest) };

    fn next(&mut self) -> Option<usize> {
        if self.rest == 0 {
            return None;
        }
        let q = smallest(self.rest);
        self.rest = without(self.rest, q);
        Some(q)
    }

    fn size_hint(&self) -> (usize, Option<usize>) {
        let n = size(self.rest);
        (n, Some(n))
    }
}
