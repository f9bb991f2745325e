// The records of a text, put into an array while the text is read: document 01, "How trainers type a rule".
#![tactic(auto)]

ghost use Rattle.std.specs.Prelude.{◌≡◌, [], ◌+◌, ◌-◌, ◌<◌, ◌≤◌, min};
ghost use Rattle.text.specs.Syntax.{Scope};
ghost use Rattle.text.specs.Syntax as syntax;
ghost use Rattle.text.specs.Records.{put_not, put_single, put_exists, put_alike, write_atom};
ghost use Rattle.ops.specs.Ops.{op_number};
ghost use Rattle.drafting.specs.Draft.{Drafted, Drafts, Puts, Joins};
ghost use Rattle.drafting.specs.Coded.{branch_op, coded_atom, AtomBelow};
ghost use Rattle.drafting.specs.Joined.{put_some_place, put_quantified, put_joined};

use ops::Op;

// A branch of a place: `.0` is the first, `.1` the second.
#[derive(Clone, Copy, Debug, PartialEq, Eq)]
pub enum Branch {
    One,
    Two,
}

impl Branch {
    // The op that says of a place that it is this branch of another.
    fn op(self) -> Op
        ensures { result ≡ branch_op self }
    {
        match self {
            Branch::One => Op::Child1,
            Branch::Two => Op::Child2,
        }
    }
}

// A place that an atom names: a variable's, its branch, or the root.
#[derive(Clone, Copy)]
pub enum Spot {
    Variable { track: usize },
    Branch { branch: Branch, track: usize },
    Root,
}

// An atom, with the tracks of its names.
#[derive(Clone, Copy)]
pub enum Atom {
    Sub { left: usize, right: usize },
    Member { element: usize, set: usize },
    Equal { left: usize, place: Spot },
}

// The quantifier words: `ex1`, `ex2`, `all1`, `all2`.
#[derive(Clone, Copy, Debug, PartialEq, Eq)]
pub enum Quantifier {
    SomePlace,
    SomeSet,
    EveryPlace,
    EverySet,
}

// The marks between two sides, from the weakest to the strongest: `<=>`, `=>`, `|`, `&`.
#[derive(Clone, Copy, Debug, PartialEq, Eq)]
pub enum Operator {
    Alike,
    Implies,
    Or,
    And,
}

// The words of the records so far, and how many they are. Past 128 records only the count tells of more, and it stays at 129.
#[derive(Clone, Copy)]
pub struct Draft {
    pub words: [u64; 128],
    pub count: usize,
}

// The number of the last of so many records. Of none it is 0; of more than there is room for it is 0 too, which no record that is kept names.
fn last(count: usize) -> usize
    ensures upper_bound { result < 128 }
    ensures value { count ≤ 128 → result ≡ count - 1 }
{
    if 128 < count {
        return 0;
    }
    count.saturating_sub(1)
}

impl Draft {
    // No records.
    pub fn new() -> Draft
        ensures { Drafted result [] }
    {
        Draft {
            words: [0; 128],
            count: 0,
        }
    }

    // One record more, of the op of this number, which may be one that no op has.
    pub fn put_numbered(&mut self, op: usize, first: usize, second: usize)
        requires op_bound { op < 16 }
        requires first_bound { self.old.count < 128 → (first < 128) × (second < 128) }
        ensures value { self.new.count ≡ min (self.old.count + 1) 129 }
        ensures puts { Puts self.old op first second self.new }
    {
        if 128 <= self.count {
            self.count = 129;
            return;
        }
        self.words[self.count] = rule_strip::write::record_word(op, first, second);
        self.count += 1;
    }

    // One record more.
    pub fn put(&mut self, op: Op, first: usize, second: usize)
        requires { self.old.count < 128 → (first < 128) × (second < 128) }
        ensures value { self.new.count ≡ min (self.old.count + 1) 129 }
        ensures puts { Puts self.old (op_number op) first second self.new }
    {
        self.put_numbered(op.number(), first, second);
    }

    // The denial of what was put last.
    pub fn put_not(&mut self)
        ensures { Drafts self.old self.new put_not }
    {
        self.put(Op::Not, last(self.count), 0);
    }

    // What was put last, of a variable that is a singleton.
    pub fn put_single(&mut self, track: usize)
        requires { track < 128 }
        ensures { Drafts self.old self.new (put_single track) }
    {
        let count = self.count;
        self.put(Op::Single, track, 0);
        self.put(Op::And, count, last(count));
    }

    // What was put last, of some value of a variable.
    pub fn put_exists(&mut self, track: usize)
        requires { track < 128 }
        ensures { Drafts self.old self.new (put_exists track) }
    {
        self.put(Op::Exists, track, last(self.count));
    }

    // What was put last, of some place.
    fn put_some_place(&mut self, track: usize)
        requires { track < 128 }
        ensures { Drafts self.old self.new (put_some_place track) }
    {
        self.put_single(track);
        self.put_exists(track);
    }

    // What was put last, under a quantifier word that binds a variable.
    pub fn put_quantified(&mut self, quantifier: Quantifier, track: usize)
        requires { track < 128 }
        ensures { Drafts self.old self.new (put_quantified quantifier track) }
    {
        match quantifier {
            Quantifier::SomePlace => self.put_some_place(track),
            Quantifier::SomeSet => self.put_exists(track),
            Quantifier::EveryPlace => {
                self.put_not();
                self.put_some_place(track);
                self.put_not();
            }
            Quantifier::EverySet => {
                self.put_not();
                self.put_exists(track);
                self.put_not();
            }
        }
    }

    // Two sides that are alike: neither without the other. The count before a record is its number.
    fn put_alike(&mut self, left: usize)
        ensures { Joins self.old left self.new put_alike }
    {
        let a = last(left);
        let b = last(self.count);
        let not_a = self.count;
        self.put(Op::Not, a, 0);
        let not_b = self.count;
        self.put(Op::Not, b, 0);
        let b_after_a = self.count;
        self.put(Op::Or, not_a, b);
        let a_after_b = self.count;
        self.put(Op::Or, not_b, a);
        self.put(Op::And, b_after_a, a_after_b);
    }

    // Two sides, joined by a mark; `left` is the count after the left side, which for `=>` ends in its denial.
    pub fn put_joined(&mut self, operator: Operator, left: usize)
        ensures { Joins self.old left self.new (put_joined operator) }
    {
        match operator {
            Operator::Alike => self.put_alike(left),
            Operator::And => self.put(Op::And, last(left), last(self.count)),
            Operator::Or | Operator::Implies => self.put(Op::Or, last(left), last(self.count)),
        }
    }

    // An atom.
    pub fn put_atom(&mut self, atom: Atom)
        requires { AtomBelow 128 atom }
        ensures { (sc : Scope) (a : syntax.Atom) → atom ≡ coded_atom sc a → Drafts self.old self.new (write_atom sc a) }
    {
        match atom {
            Atom::Sub { left, right } => self.put(Op::Subset, left, right),
            Atom::Member { element, set } => self.put(Op::Subset, element, set),
            Atom::Equal { left, place } => match place {
                Spot::Variable { track } => self.put(Op::Subset, left, track),
                Spot::Branch { branch, track } => self.put(branch.op(), left, track),
                Spot::Root => self.put(Op::Root, left, 0),
            },
        }
    }
}
