//! What is wrong with a row, by a name.

use desk_store_rows::Key;
use page_btree::SmallBytes;

/// What is wrong with a row.
#[derive(Clone, Copy, Drop)]
pub enum Wrong {
    /// The key is no row's.
    UnknownRow,
    /// The value isn't one that such a row has.
    BadValue,
    /// A number that comes next, or a later one, is in use.
    NumberTooHigh,
    /// Two plans have one number.
    TwoPlans,
    /// The plan's number is a deleted plan's, or the sealed load is marked as begun.
    TakenAway,
    /// A part of a revision belongs to no plan, or a block or a pair of neighbours to no load.
    NoOwner,
    /// The plan has no such revision, or the seal counts no such row.
    TooMany,
    /// A chunk's count isn't how many plans hold it.
    WrongCount,
    /// A plan holds a chunk that it doesn't name.
    NotNamed,
    /// A plan names a chunk that it doesn't hold.
    NotHeld,
    /// A piece is of a chunk that no plan names.
    NobodyHolds,
    /// A district is above the plan's last.
    DistrictTooHigh,
    /// A revision has more counties than the geography, or fewer, or a chunk has more districts than its county has blocks, or fewer.
    WrongLength,
    /// Blocks or pairs of neighbours don't rise.
    WrongOrder,
}

impl Wrong {
    /// The name.
    pub fn name(self) -> &'static str {
        match self {
            Wrong::UnknownRow => "UnknownRow",
            Wrong::BadValue => "BadValue",
            Wrong::NumberTooHigh => "NumberTooHigh",
            Wrong::TwoPlans => "TwoPlans",
            Wrong::TakenAway => "TakenAway",
            Wrong::NoOwner => "NoOwner",
            Wrong::TooMany => "TooMany",
            Wrong::WrongCount => "WrongCount",
            Wrong::NotNamed => "NotNamed",
            Wrong::NotHeld => "NotHeld",
            Wrong::NobodyHolds => "NobodyHolds",
            Wrong::DistrictTooHigh => "DistrictTooHigh",
            Wrong::WrongLength => "WrongLength",
            Wrong::WrongOrder => "WrongOrder",
        }
    }
}

/// A row that is wrong.
#[derive(Drop)]
pub struct WrongRow {
    pub wrong: Wrong,
    pub key: SmallBytes,
}

impl WrongRow {
    ghost use Rattle.std.specs.Prelude.{◌≡◌, ◌≤◌, length};

    /// A row that is wrong, by the bytes of its key.
    pub(crate) fn of(wrong: Wrong, key: &[u8]) -> WrongRow
        requires { length key.now ≤ 1024 }
        ensures { result.key ≡ key.now }
    {
        let mut bytes = SmallBytes::empty();
        bytes.set(key);
        WrongRow { wrong, key: bytes }
    }

    /// The same by its key.
    pub(crate) fn at(wrong: Wrong, key: &Key) -> WrongRow {
        WrongRow::of(wrong, key.as_slice())
    }
}
