// The transition rules of the five atoms, over the two bits and the two branch states: four as constant tables, Sing by its formula.
ghost use Rattle.std.specs.Prelude.{◌≡◌, ◌/◌, ◌%◌, ◌<◌};
ghost use Rattle.table.specs.Succ.{atom_code, single_rule};

use ops::Op;

const SUBSET: [u8; 64] = [
    0, 1, 1, 1, 1, 1, 1, 1, 1, 1, 1, 1, 1, 1, 1, 1, 0, 1, 1, 1, 1, 1, 1, 1, 1, 1, 1, 1, 1, 1, 1, 1,
    1, 1, 1, 1, 1, 1, 1, 1, 1, 1, 1, 1, 1, 1, 1, 1, 0, 1, 1, 1, 1, 1, 1, 1, 1, 1, 1, 1, 1, 1, 1, 1,
];

const CHILD1: [u8; 64] = [
    0, 3, 2, 3, 3, 3, 3, 3, 2, 3, 3, 3, 3, 3, 3, 3, 3, 3, 3, 3, 2, 3, 3, 3, 3, 3, 3, 3, 3, 3, 3, 3,
    1, 3, 3, 3, 3, 3, 3, 3, 3, 3, 3, 3, 3, 3, 3, 3, 3, 3, 3, 3, 3, 3, 3, 3, 3, 3, 3, 3, 3, 3, 3, 3,
];

const CHILD2: [u8; 64] = [
    0, 3, 2, 3, 3, 3, 3, 3, 2, 3, 3, 3, 3, 3, 3, 3, 3, 2, 3, 3, 3, 3, 3, 3, 3, 3, 3, 3, 3, 3, 3, 3,
    1, 3, 3, 3, 3, 3, 3, 3, 3, 3, 3, 3, 3, 3, 3, 3, 3, 3, 3, 3, 3, 3, 3, 3, 3, 3, 3, 3, 3, 3, 3, 3,
];

const ROOT: [u8; 64] = [
    0, 2, 2, 2, 2, 2, 2, 2, 2, 2, 2, 2, 2, 2, 2, 2, 0, 2, 2, 2, 2, 2, 2, 2, 2, 2, 2, 2, 2, 2, 2, 2,
    1, 2, 2, 2, 2, 2, 2, 2, 2, 2, 2, 2, 2, 2, 2, 2, 1, 2, 2, 2, 2, 2, 2, 2, 2, 2, 2, 2, 2, 2, 2, 2,
];

// Sing has no table: its rule is the smaller of 2 and the sum of both branches' states and the bit. They stand in the number that the
// others' tables are indexed by.
fn single_at(k: usize) -> u8
    requires { k < 64 }
    ensures { result ≡ single_rule (k / 32) (k / 16 % 2) (k / 4 % 4) (k % 4) }
{
    let bit = (k / 32) as u8;
    let first = (k / 4 % 4) as u8;
    let second = (k % 4) as u8;
    (first + second + bit).min(2)
}

// An atom's successor, from the place in its table; 0 for any other kind.
pub fn rule_at(kind: Op, k: usize) -> u64
    requires { k < 64 }
    ensures { result ≡ atom_code kind k }
{
    let state = match kind {
        Op::Subset => SUBSET[k],
        Op::Single => single_at(k),
        Op::Child1 => CHILD1[k],
        Op::Child2 => CHILD2[k],
        Op::Root => ROOT[k],
        _ => 0,
    };
    u64::from(state)
}
