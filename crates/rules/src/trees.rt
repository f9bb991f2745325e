// A tree strip beside a rule of n variables.
ghost use Rattle.std.specs.Prelude.{◌≡◌};
ghost use Rattle.rules.specs.Trees.{tree_refusal};

use refusals::{Reason, Refusal};

// The refusals 15 to 22.
#[tactic(auto, unfolding(crate::specs::Trees::tree_refusal), using(tree_strip::proofs::TreeLaws::checked_refused, crate::proofs::TreeRefusals::tree_sound))]
pub fn tree_refusal(tree: &[u8], n: usize) -> Result<(), Refusal>
    ensures { result ≡ tree_refusal tree.now n }
{
    let size = tree_strip::check::check_tree(tree)?;
    if size.variables != n {
        return Err(Refusal::Plain(Reason::TreeOther));
    }
    Ok(())
}
