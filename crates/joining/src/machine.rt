// A stored machine, as its states are compared.
ghost use Rattle.joining.specs.Parting.{Span};

use layout::Shape;

// The bytes of the share with the machine's table, the table's shape, and the number of states.
#[derive(Clone, Copy)]
pub struct Machine<'a> {
    pub table: &'a [u8],
    pub shape: Shape,
    pub states: usize,
    pub ghost span: { Span shape table.now states },
}
