//! What holds of desks in pages.
ghost use Rattle.desk_store_pages.specs.Laws.{ReadsWhatPagesHold, HoldsWhatWasPrepared, HoldsOneDesk, OpensOneOfTwo};

use desk_store_rows::laws::desk_is_one;

/// Pages with a root and free pages hold at most one desk, in whichever version.
pub fn one_desk()
    ensures { HoldsOneDesk }
{
    desk_is_one();
}

/// A transaction that is begun reads the desk that the pages hold, and a prepared one holds the desk that the transaction read.
pub fn desks_are_kept()
    ensures begun { ReadsWhatPagesHold }
    ensures prepared { HoldsWhatWasPrepared }
{}

/// An image with the pages before a commit or those after it opens to the desk before it or to the desk after it. So does each
/// that a stop leaves at any moment of it (`leaves_desks` in proofs/ says it of a device's moments).
pub fn stops_leave_desks()
    ensures { OpensOneOfTwo }
{}
