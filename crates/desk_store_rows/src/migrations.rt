//! What leads from the old version of the rows to the new one.
ghost use Rattle.desk_store_rows.specs.MigrationLaws.{NamedIsHeld, NewIsTidy, VersionIsTold};

/// A plan becomes a holder of a chunk that one of its parts names: the desk stays as it is, and the
/// rows stay tidy, in either version.
pub fn named_is_held()
    ensures { NamedIsHeld }
{}

/// If each existing plan holds what it names, the rows may have the version's row.
pub fn version_is_told()
    ensures { VersionIsTold }
{}

/// A new store, which has only the row of the version, is tidy.
pub fn new_is_tidy()
    ensures { NewIsTidy }
{}
