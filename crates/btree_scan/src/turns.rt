//! Goes from a leaf that is held to the next one.
ghost use Rattle.std.specs.Prelude.{◌≡◌, ◌<◌, ◌+◌, List, drop, OnOk, OnErr, IfErr};
ghost use Rattle.page_btree.specs.node.claim.Entries.{Entry};
ghost use Rattle.page_btree.specs.gets.Seeking.{bound_in, AreLeaves};
ghost use Rattle.page_btree.specs.gets.declared.error.TreeError.TheVariants.{NotAStore};
ghost use Rattle.btree_scan.specs.Turning.{IsTurned};

use crate::held::HeldLeaves;
use page_btree::{Leaf, TreeError, place_from};

/// Moves to the first row of the next leaf in memory.
pub(crate) fn turn(leaf: &mut Leaf, held: &mut HeldLeaves) -> Result<(), TreeError>
    requires { 0 < leaf.old.more }
    ensures turned { (rows : List Entry) → AreLeaves leaf.old.more (drop (held.old.which + 1) held.old.pages) rows
        → OnOk result (IsTurned rows leaf.new held.new) }
    ensures bound { bound_in leaf.new ≡ bound_in leaf.old }
    ensures err { IfErr result (λ e. e ≡ NotAStore) }
    ensures refused { OnErr result ((rows : List Entry) → AreLeaves leaf.old.more (drop (held.old.which + 1) held.old.pages) rows → ⊥) }
{
    if held.which > 2 {
        return Err(TreeError::NotAStore);
    }
    held.which += 1;
    leaf.more -= 1;
    let place = place_from(held.page(), &[])?;
    leaf.at = place.at;
    leaf.left = place.left;
    Ok(())
}
