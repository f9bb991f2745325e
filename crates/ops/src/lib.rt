// The ops of records: what each kind of record says of its variables or of the records that it names.
#![tactic(auto)]

ghost use Rattle.std.specs.Prelude.{◌≡◌, ◌<◌};
ghost use Rattle.ops.specs.Ops.{op_number, NumbersOp};

// The ops, in the order of their numbers, which start at 0.
#[derive(Clone, Copy, Debug, PartialEq, Eq)]
pub enum Op {
    // X is a subset of Y.
    Subset,
    // X has one member.
    Single,
    // X is the first branch of Y.
    Child1,
    // X is the second branch of Y.
    Child2,
    // X is the root.
    Root,
    // The record that is named does not hold.
    Not,
    // One of two records holds.
    Or,
    // Both of two records hold.
    And,
    // The record that is named holds for some value of a variable.
    Exists,
}

impl Op {
    pub fn number(self) -> usize
        ensures value { result ≡ op_number self }
        ensures upper_bound { result < 9 }
    {
        self as usize
    }
}

// A number that no op has.
#[derive(Clone, Copy, Debug, PartialEq, Eq)]
pub struct UnknownOp(pub usize);

impl TryFrom<usize> for Op {
    type Error = UnknownOp;

    ghost try_from_gives = { NumbersOp };

    fn try_from(number: usize) -> Result<Self, UnknownOp> {
        match number {
            0 => Ok(Op::Subset),
            1 => Ok(Op::Single),
            2 => Ok(Op::Child1),
            3 => Ok(Op::Child2),
            4 => Ok(Op::Root),
            5 => Ok(Op::Not),
            6 => Ok(Op::Or),
            7 => Ok(Op::And),
            8 => Ok(Op::Exists),
            _ => Err(UnknownOp(number)),
        }
    }
}
