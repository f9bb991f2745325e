// Classes of states: one for each byte's state, by its first member.
ghost use Rattle.std.specs.Prelude.{◌≡◌, true, ℕ, ◌≤◌, ◌<◌};
ghost use Rattle.std.specs.Bool.{beq};
ghost use Rattle.words.specs.Word.{mem};
ghost use Rattle.joining.specs.Classes.{class_in};
ghost use Rattle.joining.specs.Parting.{FirstSuch, SeenBy, Whole, total};

use words::has;

// A class for each state that a byte can have, by its first member, which is its own.
#[derive(Clone, Copy)]
pub struct Classes {
    pub of: [u8; 64],
    pub ghost whole: { Whole of },
}

// The first state that accepts if q does, and does not if q does not: at the latest q itself, so there always is one.
fn first_like(accept: u64, q: usize) -> usize
    requires { q < 64 }
    ensures { FirstSuch (λ p. beq (mem p accept) (mem q accept)) q result }
{
    let mine = has(accept, q);
    for p in 0..q {
        let other = has(accept, p);
        if other == mine {
            return p;
        }
    }
    q
}

impl Classes {
    // The classes of the n states by acceptance alone.
    pub fn by_acceptance(accept: u64, n: usize) -> Self
        requires { n ≤ 64 }
        ensures { SeenBy accept n result.of }
    {
        let mut of = [0u8; 64];
        for q in 0..n {
            of[q] = first_like(accept, q) as u8;
        }
        Classes { of }
    }

    // The first member of q's class.
    pub fn leader(&self, q: usize) -> usize
        requires { q < 64 }
        ensures { result ≡ class_in self.now.of q }
    {
        usize::from(self.of[q])
    }

    // The sum of the classes. A class only moves up, so the sum tells whether one moved.
    pub fn total(&self) -> usize
        ensures { result ≡ total self.now.of 64 }
    {
        let mut sum: usize = 0;
        for class in &self.of {
            sum += usize::from(*class);
        }
        sum
    }

    // Is each of the n states alone in its class, so that nothing is left to part?
    pub fn all_single(&self, n: usize) -> bool
        requires { n ≤ 64 }
        ensures { result ≡ true → (q : ℕ) → q < n → class_in self.now.of q ≡ q }
    {
        self.of[..n]
            .iter()
            .enumerate()
            .all(|(q, class)| usize::from(*class) == q)
    }
}
