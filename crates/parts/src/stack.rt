// A stack of records, known by their numbers. There is always room: each record is taken up once, and only then puts two others there.
ghost use Rattle.std.specs.Prelude.{◌≡◌, ◌+◌, ◌<◌, ◌≤◌, ℕ, List, [], ◌∷◌, length, MatchOption};
ghost use Rattle.parts.specs.Stack.{top_first};

use std::marker::Model;

#[derive(Drop)]
pub struct Stack {
    entries: [u8; 128],
    depth: usize,
}

// Clauses see the records, the one on top first.
impl Model for Stack {
    ghost Value = { List ℕ };

    ghost view = { λ s. top_first s.entries s.depth };

    ghost invariant = { λ s. s.depth ≤ 128 };
}

impl Stack {
    pub fn new() -> Stack
        ensures { result ≡ [] }
    {
        Stack {
            entries: [0; 128],
            depth: 0,
        }
    }

    pub fn push(&mut self, i: usize)
        requires room { length self.old < 128 }
        requires i_bound { i < 128 }
        ensures { self.new ≡ i ∷ self.old }
    {
        self.entries[self.depth] = i as u8;
        self.depth += 1;
    }

    // Both fields of an "and": the second, then the first, which is on top.
    pub fn push_both(&mut self, first: usize, second: usize)
        requires room { length self.old + 1 < 128 }
        requires first_bound { first < 128 }
        requires second_bound { second < 128 }
        ensures { self.new ≡ first ∷ (second ∷ self.old) }
    {
        self.push(second);
        self.push(first);
    }

    pub fn pop(&mut self) -> Option<usize>
        ensures { MatchOption result ((self.old ≡ []) × (self.new ≡ [])) (λ i. self.old ≡ i ∷ self.new) }
    {
        if self.depth == 0 {
            return None;
        }
        self.depth -= 1;
        Some(usize::from(self.entries[self.depth]))
    }
}
