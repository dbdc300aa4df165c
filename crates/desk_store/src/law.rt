//! Where a command isn't refused for the depth of the tree.
ghost use Rattle.desk_store.specs.Depth.{IsNeverDeep};

use sector_device::SectorDevice;

/// Over a tree of at most five levels no command of fewer than 50 rows is answered `Full` for the tree's depth. So with 26 free pages a
/// retire is never answered `Full`, and a create only if no plan number is left.
#[tactic(auto, using(crate::proofs::NeverDeep::never_deep))]
pub fn depth_law<D: SectorDevice>()
    ensures { IsNeverDeep D D.SectorDevice }
{}
