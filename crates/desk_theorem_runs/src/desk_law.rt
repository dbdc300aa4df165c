//! What an image opens to is one desk.
ghost use Rattle.desk_theorem_runs.specs.Recovery.{ImagesAreOne};

use desk_store_pages::laws::one_desk;

/// An image opens to one desk at most.
pub fn one_desk_opens()
    ensures { ImagesAreOne }
{
    one_desk();
}
