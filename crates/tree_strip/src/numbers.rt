// What C is told of a tree strip: include/ws2s.h, `ws2s_tree`. Fields that do not apply are 0.
ghost use Rattle.std.specs.Prelude.{◌≡◌};
ghost use Rattle.tree_strip.specs.Numbers.{refused_tree, tree_numbers};

use crate::check::TreeSize;
use refusals::Fault;

// A refusal by its number, whichever it is, and the bit place that it names.
pub fn refused_tree(number: u64, at: u64) -> TreeNumbers
    ensures { result ≡ refused_tree number at }
{
    TreeNumbers {
        refusal: number,
        variables: 0,
        positions: 0,
        place: at,
    }
}

pub fn tree_numbers(r: Result<TreeSize, Fault>) -> TreeNumbers
    ensures { result ≡ tree_numbers r }
{
    match r {
        Ok(size) => TreeNumbers {
            refusal: 0,
            variables: size.variables as u64,
            positions: size.positions as u64,
            place: 0,
        },
        Err(fault) => refused_tree(fault.reason.number(), fault.place),
    }
}

// place is the bit place that a refusal names.
#[repr(C)]
#[derive(Clone, Copy)]
pub struct TreeNumbers {
    pub refusal: u64,
    pub variables: u64,
    pub positions: u64,
    pub place: u64,
}
