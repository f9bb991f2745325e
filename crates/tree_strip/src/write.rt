// Tree strips, written by following the ranks of a tree's branches down.
ghost use Rattle.std.specs.Prelude.{◌≡◌, ◌∷◌, ◌+◌, length};
ghost use Rattle.std.proofs.lemmas.List.Edits.{sets};
ghost use Rattle.bits.specs.Bits.{bits, digits};
ghost use Rattle.tree_strip.specs.TreeStrip.{tree_bits, strip_of_tree};
ghost use Rattle.tree_strip.specs.Ranks.{tree_of_rank, NodeRoom, Writable, AsLong};

// A tree by the label of its root and the ranks of its branches, which are smaller than its own; that of rank 0 is empty.
#[derive(Clone, Copy)]
pub struct Rank {
    pub label: usize,
    pub first: usize,
    pub second: usize,
}

// The trees of the first ranks, so many as are settled, in the order of the ranks; the last is the one that is shown.
#[derive(Clone, Copy)]
pub struct Ranks {
    pub nodes: [Rank; 64],
    pub count: usize,
}

// A node bit and a label of n bits, at a place that holds zeros.
fn put_node(d: &mut [u8], at: usize, n: usize, label: usize)
    requires { NodeRoom d.old at n }
    ensures { bits d.new ≡ sets (bits d.old) at (1 ∷ digits n label) }
{
    bits::set_bit(d, at);
    bits::put_field(d, at + 1, n, label as u64);
}

// The bits of the tree of rank r, at a place that holds zeros; the place after them.
fn write_tree(d: &mut [u8], at: usize, n: usize, ranks: &Ranks, r: usize) -> usize
    requires { Writable d.old at n ranks.now.nodes ranks.now.count r }
    ensures value { result ≡ at + length (tree_bits n (tree_of_rank ranks.now.nodes ranks.now.count r)) }
    ensures d_after { bits d.new
        ≡ sets (bits d.old) at (tree_bits n (tree_of_rank ranks.now.nodes ranks.now.count r)) }
{
    if r == 0 {
        return at + 1;
    }
    let node = ranks.nodes[r];
    put_node(d, at, n, node.label);
    let next = write_tree(d, at + 1 + n, n, ranks, node.first);
    write_tree(d, next, n, ranks, node.second)
}

// The strip of the tree of rank r, over the whole of out, which is as long as the strip.
pub fn write_strip(out: &mut [u8], n: usize, ranks: &Ranks, r: usize)
    requires { AsLong out.old n ranks.now r }
    ensures { out.new ≡ strip_of_tree n (tree_of_rank ranks.now.nodes ranks.now.count r) }
{
    out.fill(0);
    bits::put_field(out, 0, 4, 1);
    bits::put_field(out, 4, 4, n as u64);
    write_tree(out, 8, n, ranks, r);
}
