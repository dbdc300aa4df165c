//! Laws of the text.
ghost use Rattle.baf_text.specs.Body.{FaultIsFirst, ReadIsListed};
ghost use Rattle.baf_text.specs.Laws.{PrintedIsRead};

/// What is read of a text is what its lines list, each line by itself and each block at most once.
pub fn read_is_listed()
    ensures { ReadIsListed }
{}

/// The fault returned is the fault of the first line that has one.
pub fn fault_is_first()
    ensures { FaultIsFirst }
{}

/// What is printed of an assignment is read as that assignment, and as no other.
pub fn printed_is_read()
    ensures { PrintedIsRead }
{}
