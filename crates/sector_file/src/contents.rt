//! What a file holds as it is opened.
ghost use Rattle.std.specs.Prelude.{ℕ, List, []};

use std::marker::PhantomData;

/// What each sector of a file held as it was opened. A function over `S: Contents` is proved for all contents, which no
/// code can read. A device is honest only where its file held what its `S` says, so each opening wants an `S` of its own.
pub trait Contents: Drop {
    ghost sector: { ℕ → List ℕ };

    // What each sector holds as the file is opened once more, to be copied.
    ghost later: { ℕ → List ℕ } = { λ _. [] };
}

/// For a program to name, and for code with no clause on what a file held: at this type such a clause says nothing of a
/// sector that is read before it is written.
#[derive(Drop)]
pub struct Unknown;

impl Contents for Unknown {
    ghost sector = { λ _. [] };
}

/// What the file of `S` holds as it is opened once more. Each copy has an `S` of its own in mind:
/// what is proved for every `S` is proved for each copy, whatever the file holds then.
#[derive(Drop)]
pub struct Later<S: Contents> {
    of: PhantomData<S>,
}

impl<S: Contents> Later<S> {
    pub fn new() -> Later<S> {
        Later { of: PhantomData }
    }
}

impl<S: Contents> Contents for Later<S> {
    ghost sector = { S.Contents.later };
}
