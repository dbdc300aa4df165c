//! A law of the definitions.
ghost use Rattle.std.specs.Prelude.{◌≢◌, Option, Some};
ghost use Rattle.desk_model.specs.claim.Geography.{GeographyModel};
ghost use Rattle.census_difference.specs.claim.Differences.{DiffersFrom};
ghost use Rattle.census_difference.specs.declared.difference.Difference.{Difference};

/// A store from which a difference is named has another geography.
#[tactic(auto, using(crate::proofs::Apart::is_another))]
pub fn differences_are_real()
    ensures { (stored : Option GeographyModel) (said : GeographyModel) (d : Difference) → DiffersFrom stored said (Some d) → stored ≢ Some said }
{}
