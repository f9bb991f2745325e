// What is to be built of a record: its op, and where its parts and its table lie.
use layout::Shape;
use ops::Op;

// A machine to be built: its op, the places where the tables of its parts start, the weights of the bits of its variables, the shape of the
// tables, the place where its own starts, and the bits of the labels that it and its parts look at. A table has its entries at the labels with
// no other bit: the record does not tell any other label from one of these. The op says how successor codes are computed: an atom's by its
// table, those of "or" and "and" as pairs of the states of two machines, those of "exists" as sets of the states of one. A "not" has no plan:
// its machine is its part's, with the other states accepting, and is not explored.
#[derive(Clone, Copy)]
pub struct Plan {
    pub kind: Op,
    pub table1: usize,
    pub table2: usize,
    pub wx: usize,
    pub wy: usize,
    pub shape: Shape,
    pub base: usize,
    pub looks: usize,
    pub look1: usize,
    pub look2: usize,
}
