//! A piece of a list that lists share.
ghost use Rattle.std.specs.Prelude.{◌≡◌, ◌≤◌, ◌<◌, ◌^◌, ◌++◌, ℕ, true, length, get_or, drop, replicate, IfOk, OnOk};

use crate::form::{Form, append, are_same, at, packed, shared};
use std::alloc::{AllocError, Global};
use std::marker::Model;

/// A full piece has this many districts.
pub const FULL: usize = 512;

/// The districts of consecutive blocks, in the form that takes the least memory.
#[derive(Drop)]
pub struct Piece {
    form: Form,
}

impl Model for Piece {
    ghost use Rattle.std.specs.Prelude.{ℕ, List};

    ghost Value = { List ℕ };

    ghost use Rattle.desk_store_lists.specs.Forms.{said};
    ghost use Rattle.desk_store_lists.specs.Laid.{AreShort};

    ghost view = { λ a. said a.form };

    ghost invariant = { λ a. AreShort (said a.form) };
}

impl Piece {
    ghost use Rattle.std.specs.Prelude.{◌≡◌, ◌≤◌, ◌++◌, true, length, get_or, drop, replicate, IfOk, OnOk};
    ghost use Rattle.desk_store_lists.specs.Laid.{AreShort};

    /// A piece of these districts.
    pub fn pack(alloc: Global, list: &[u16]) -> Result<Piece, AllocError>
        ensures { IfOk result (λ piece. piece ≡ list.now) }
    {
        Ok(Piece {
            form: packed(alloc, list)?,
        })
    }

    /// A piece of `count` unassigned blocks.
    pub fn unassigned(count: usize) -> Piece
        ensures { result ≡ replicate count 0 }
    {
        Piece {
            form: Form::Same { district: 0, count },
        }
    }

    /// The same piece, of the same memory.
    pub fn share(&self) -> Result<Piece, AllocError>
        ensures { IfOk result (λ piece. piece ≡ self.now) }
    {
        Ok(Piece {
            form: shared(&self.form)?,
        })
    }

    /// A district has two bytes: a law, with nothing to run.
    pub fn districts_fit(&self)
        ensures { AreShort self.now }
    {
        let _ = &self.form;
    }

    /// The district at a place, and 0 after the last one.
    pub fn at(&self, place: usize) -> u16
        ensures { result ≡ get_or self.now place 0 }
    {
        at(&self.form, place)
    }

    /// Whether another piece has the same districts in the same form: if not, it may still have the
    /// same districts.
    pub fn is_alike(&self, other: &Piece) -> bool
        ensures { result ≡ true → self.now ≡ other.now }
    {
        are_same(&self.form, &other.form)
    }

    /// Appends the districts.
    pub fn append_to(&self, into: &mut Vec<u16>) -> Result<(), AllocError>
        ensures { OnOk result (into.new.items ≡ into.old.items ++ self.now) }
    {
        append(into, &self.form)
    }

    /// The districts, flat.
    pub fn to_vec(&self, alloc: Global) -> Result<Vec<u16>, AllocError>
        ensures { IfOk result (λ list. list.items ≡ self.now) }
    {
        let mut list = Vec::with_capacity(alloc, FULL)?;
        self.append_to(&mut list)?;
        Ok(list)
    }

    /// The districts from a place on, flat.
    pub fn tail(&self, alloc: Global, from: usize) -> Result<Vec<u16>, AllocError>
        requires { from ≤ length self.now }
        ensures { IfOk result (λ list. list.items ≡ drop from self.now) }
    {
        let all = self.to_vec(alloc)?;
        Ok(Vec::from_slice(alloc, &all.as_slice()[from..])?)
    }
}
