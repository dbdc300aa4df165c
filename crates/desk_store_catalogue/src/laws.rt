//! What holds of the counties' places.
ghost use Rattle.std.specs.Prelude.{length};
ghost use Rattle.desk_model.specs.Ranges.{ranges_of};
ghost use Rattle.desk_model.specs.claim.Geography.{GeographyModel};
ghost use Rattle.desk_store_catalogue.specs.Cutting.{AreWithin};

use desk_model::laws::lists_are_cut;

/// The counties' places are places of the blocks.
#[tactic(auto, using(crate::proofs::Counted::ranges_within))]
pub fn ranges_are_within()
    ensures { (g : GeographyModel) → AreWithin (length g.blocks) (ranges_of g) }
{
    lists_are_cut();
}
