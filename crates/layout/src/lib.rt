// Where machines lie in the workspace: each record's table in a share of its own, an entry for each label and each choice of states.
#![tactic(auto)]

ghost use Rattle.std.specs.Prelude.{◌≡◌, ◌≤◌, ◌<◌, [], ◌∷◌};
ghost use Rattle.layout.specs.Shape.{Shaped, shape_of, labels_in, place_in, share_of, share_at};
ghost use Rattle.layout.specs.Slots.{range_of, Slotted, slot_place};

// What the tables of a rule have in common: the number of variables, the state ceiling, and the number of branches of a node.
// `Shaped` stays a `requires` and no invariant, since `shape_for` promises a shape for every n and c.
#[derive(Clone, Copy)]
pub struct Shape {
    pub variables: usize,
    pub ceiling: usize,
    pub branches: usize,
}

// The shape of the tables for n variables and the state ceiling c.
pub fn shape_for(n: usize, c: usize) -> Shape
    ensures { result ≡ shape_of n c }
{
    Shape {
        variables: n,
        ceiling: c,
        branches: 2,
    }
}

// The number of labels.
pub fn labels(s: Shape) -> usize
    requires { Shaped s }
    ensures { (result ≡ labels_in s) × (result ≤ 256) }
{
    1 << s.variables
}

// The bytes of a share.
pub fn share(s: Shape) -> usize
    requires { Shaped s }
    ensures { (result ≡ share_of s) × (result ≤ 1048576) }
{
    let c = s.ceiling;
    labels(s) * c * c
}

// Where the share of record r starts.
pub fn share_at(s: Shape, r: usize) -> usize
    requires shaped { Shaped s }
    requires r_bound { r < 256 }
    ensures { (result ≡ share_at s r) × (result ≤ 268435456) }
{
    r * share(s)
}

// Where the entry for label l and the states i and j stands in a table.
pub fn place(s: Shape, l: usize, i: usize, j: usize) -> usize
    requires shaped { Shaped s }
    requires l_bound { (l < 512) × (i < 64) × (j < 64) }
    ensures { (result ≡ place_in s l (i ∷ j ∷ [])) × (result < 4194304) }
{
    let c = s.ceiling;
    (l * c + i) * c + j
}

// How many states below n the slot takes that has so many slots after it: state 0 alone, where there are no more than these branches.
pub fn range(k: usize, after: usize, n: usize) -> usize
    ensures { result ≡ range_of k after n }
{
    if after < k { n } else { 1 }
}

// Where the entry for label l and the states in the slots stands in a table.
pub fn slot_place(s: Shape, l: usize, a: usize, b: usize, d: usize) -> usize
    requires shaped { Shaped s }
    requires l_bound { (l < 256) × Slotted s.branches s.ceiling a b d }
    ensures { (result ≡ slot_place s l a b d) × (result < 67108864) }
{
    let c = s.ceiling;
    let first = range(s.branches, 2, c);
    let second = range(s.branches, 1, c);
    ((l * first + a) * second + b) * c + d
}
