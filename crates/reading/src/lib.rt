// What is read off a record's machine once it is built: whether it accepts any tree, the earliest that it accepts, and whether it accepts
// the tree in a strip.
#![tactic(auto)]

ghost use Rattle.std.specs.Prelude.{◌≡◌, ◌≤◌};
ghost use Rattle.reading.specs.Reading.{HasMachine, HasTree, Satisfiable, Finds, Accepts};

use layout::Shape;
use records::Summary;
use search::Found;

// Does the machine that k is kept of accept any tree? All of its states are reached.
pub fn satisfiable(k: Summary) -> bool
    requires { k.count ≤ 64 }
    ensures { Satisfiable k result }
{
    search::satisfiable(k.accept, usize::from(k.count))
}

// The earliest tree that record r's machine accepts, if it has at most p positions. Here and below, where the machine stands is not a struct
// with what is kept of it: a caller has them apart, and would build one for a single call.
pub fn earliest(ws: &[u8], s: Shape, r: usize, k: Summary, p: u64) -> Found
    requires has_machine { HasMachine ws.now s r k }
    requires p_bound { p ≤ 255 }
    ensures { Finds ws.now s r k p result }
{
    let base = layout::share_at(s, r);
    search::find(
        s,
        usize::from(k.looks),
        &ws[base..],
        usize::from(k.count),
        k.accept,
        p,
    )
}

// Does record r's machine accept the tree in a strip?
pub fn accepted(ws: &[u8], s: Shape, r: usize, k: Summary, tree: &[u8]) -> bool
    requires has_machine { HasMachine ws.now s r k }
    requires has_tree { HasTree tree.now s }
    ensures { Accepts ws.now s r k tree.now result }
{
    let start = layout::share_at(s, r);
    let looks = usize::from(k.looks);
    let count = usize::from(k.count);
    let ran = running::run(tree, 8, s, looks, &ws[start..], count);
    words::has(k.accept, ran.state)
}
