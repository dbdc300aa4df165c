//! A load that is under way.
ghost use Rattle.std.specs.Prelude.{◌≡◌, ◌+◌, ◌≤◌, ◌<◌, ◌^◌, length};
ghost use Rattle.desk_model.specs.claim.GeographyModels.{IsGeographyModel};
ghost use Rattle.desk_store_rows.specs.claim.GeographyRows.{geography_rows};

use desk_model::geography::Geography;
use std::sync::Arc;

/// A geography whose rows are being staged under a number, and how many of them are: its blocks rising, then its pairs rising.
#[derive(Drop)]
pub struct Load {
    pub(crate) number: u64,
    pub(crate) geography: Arc<Geography>,
    pub(crate) done: usize,
    ghost few: { length geography.value.pairs < 2 ^ 32 },
    ghost within: { done ≤ geography_rows geography.value },
}

impl Load {
    /// The number under which its rows are staged.
    pub fn number(&self) -> u64
        ensures { result ≡ self.now.number }
    {
        self.number
    }

    /// How many rows are left to be staged.
    pub fn left(&self) -> usize
        ensures { result + self.now.done ≡ geography_rows self.now.geography.value }
    {
        self.geography.blocks().len() + self.geography.pairs().len() - self.done
    }

    /// The geography that is loaded.
    pub fn geography(&self) -> &Arc<Geography>
        ensures { result.now ≡ self.now.geography }
    {
        &self.geography
    }

    /// Its geography is one with fewer than 2^33 rows, and its number is in its range.
    pub(crate) fn is_sound(&self)
        ensures sound { IsGeographyModel self.now.geography.value }
        ensures number { self.now.number < 2 ^ 64 }
        ensures small { geography_rows self.now.geography.value < 2 ^ 33 }
    {
        let _number = self.number;
        let _pairs = self.geography.pairs();
    }
}
