// Tree strips: what stands at a bit place, the tree read there, and the check of a whole strip.
ghost use Rattle.std.specs.Prelude.{◌≡◌, suc, ◌*◌, length, drop};
ghost use Rattle.bits.specs.Bits.{bits};
ghost use Rattle.tree_strip.specs.TreeStrip.{parse, end_fault, ended};
ghost use Rattle.tree_strip.specs.TreeAnswers.{HeadPlace, TreePlace, EndPlace, Headed, head_at, closed, told, answered, checked_tree};

use refusals::{Fault, Reason};

// What stands at a bit place: the empty tree, with the place after it; or a node's label, with the place of its first branch.
#[derive(Clone, Copy)]
enum Head {
    Empty(usize),
    Node { label: usize, next: usize },
}

// What stands at a place of s, after `met` positions. A place is compared by its byte: 8 times the length could wrap.
#[tactic(auto, unfolding(crate::specs::TreeAnswers::head_at))]
fn read_head(s: &[u8], n: usize, met: usize, at: usize) -> Result<Head, Fault>
    requires { HeadPlace n at }
    ensures { result ≡ head_at s.now n met at }
{
    let end = bits::bit_length(s);
    if s.len() <= at / 8 {
        return Err(Fault {
            reason: Reason::TreeCut,
            place: end,
        });
    }
    if bits::bit_at(s, at) == 0 {
        return Ok(Head::Empty(at + 1));
    }
    if 255 <= met {
        return Err(Fault {
            reason: Reason::TreePositions,
            place: at as u64,
        });
    }
    if s.len() <= (at + n) / 8 {
        return Err(Fault {
            reason: Reason::TreeCut,
            place: end, // the label is cut short
        });
    }
    Ok(Head::Node {
        label: bits::field_at(s, at + 1, n) as usize,
        next: at + 1 + n,
    })
}

// A tree that was read: the positions met, and the place after it.
#[derive(Clone, Copy)]
struct TreeRead {
    met: usize,
    next: usize,
}

// The answer for a node, whose bit is at a place, once both branches are read, with `met` positions up to the node
// itself: they are empty where no position was met since.
fn close_node(at: usize, label: usize, met: usize, second: TreeRead) -> Result<TreeRead, Fault>
    ensures { result ≡ closed at label met second }
{
    if label == 0 && second.met == met {
        return Err(Fault {
            reason: Reason::TreeBare,
            place: at as u64,
        });
    }
    Ok(second)
}

// The tree at a place of s, after `met` positions.
fn read_tree(s: &[u8], n: usize, met: usize, at: usize) -> Result<TreeRead, Fault>
    requires { TreePlace n met at }
    ensures { result ≡ told s.now
        (parse s.now (suc (8 * length s.now)) n met (drop at (bits s.now))) }
{
    match read_head(s, n, met, at)? {
        Head::Empty(next) => Ok(TreeRead { met, next }),
        Head::Node { label, next } => {
            let first = read_tree(s, n, met + 1, next)?;
            let second = read_tree(s, n, first.met, first.next)?;
            close_node(at, label, met + 1, second)
        }
    }
}

// What the bits after the tree, from a place on, leave to refuse: the padding up to a whole byte is looked at before the
// bytes left over.
fn read_end(s: &[u8], at: usize) -> Result<(), Fault>
    requires { EndPlace s.now at }
    ensures { result ≡ end_fault at (drop at (bits s.now)) }
{
    let whole = (at + 7) / 8 * 8;
    let set = bits::first_set(s, at, whole);
    if set < whole {
        return Err(Fault {
            reason: Reason::TreeLeftOver,
            place: set as u64,
        });
    }
    if whole / 8 < s.len() {
        return Err(Fault {
            reason: Reason::TreeLeftOver,
            place: whole as u64,
        });
    }
    Ok(())
}

// What an accepted tree strip says: its variables, and its tree's positions.
#[derive(Clone, Copy, Debug, PartialEq, Eq)]
pub struct TreeSize {
    pub variables: usize,
    pub positions: usize,
}

// Checks the bits after the version and n.
fn check_bits(s: &[u8], n: usize) -> Result<TreeSize, Fault>
    requires { Headed s.now n }
    ensures { result ≡ answered s.now (ended s.now
        (parse s.now (suc (8 * length s.now)) n 0 (drop 8 (bits s.now)))) }
{
    let tree = read_tree(s, n, 0, 8)?;
    read_end(s, tree.next)?;
    Ok(TreeSize {
        variables: n,
        positions: tree.met,
    })
}

// Checks a tree strip of any length.
#[tactic(auto, unfolding(crate::specs::TreeStrip::read_tree))]
pub fn check_tree(s: &[u8]) -> Result<TreeSize, Fault>
    ensures { result ≡ checked_tree s.now }
{
    if s.is_empty() {
        return Err(Fault {
            reason: Reason::TreeShort,
            place: bits::bit_length(s),
        });
    }
    if bits::field_at(s, 0, 4) != 1 {
        return Err(Fault {
            reason: Reason::TreeVersion,
            place: 0,
        });
    }
    let n = bits::field_at(s, 4, 4) as usize;
    if !(1..=8).contains(&n) {
        return Err(Fault {
            reason: Reason::TreeVariables,
            place: 4,
        });
    }
    check_bits(s, n)
}
