//! What is noted of the values of a group's blocks, block by block.
ghost use Rattle.std.specs.Prelude.{◌≡◌, ◌≤◌, ◌^◌, length, IfOk};
ghost use Rattle.audit_splits_nesting.specs.claim.Exactly.{AreExactly};
ghost use Rattle.audit_splits_nesting.specs.Marks.{AreUnseen, marked, IsDividedAt};

use std::alloc::{AllocError, Global};

/// The values on a group's blocks. A group has parts, whose numbers never fall along the blocks.
#[derive(Clone, Copy)]
pub enum GroupMark {
    Unseen,
    /// No part has two values: the last part that was seen, and its value.
    Seen { part: u16, value: u16 },
    /// A part has two values.
    Divided,
}

impl GroupMark {
    /// Notes a block more. What stays the same isn't written.
    pub fn note(&mut self, part: u16, value: u16)
        ensures { self.new ≡ marked self.old part value }
    {
        match *self {
            GroupMark::Seen {
                part: last,
                value: known,
            } if last == part => {
                if known != value {
                    *self = GroupMark::Divided;
                }
            }
            GroupMark::Unseen | GroupMark::Seen { .. } => *self = GroupMark::Seen { part, value },
            GroupMark::Divided => {}
        }
    }
}

/// Marks of `count` groups of which no block was seen yet.
pub fn unseen(alloc: Global, count: usize) -> Result<Vec<GroupMark>, AllocError>
    ensures { IfOk result (λ v. AreUnseen count v.items) }
{
    vec![in alloc; GroupMark::Unseen; count]
}

/// The groups that are divided, rising.
pub fn divided_u16(alloc: Global, marks: &[GroupMark]) -> Result<Vec<u16>, AllocError>
    requires { length marks.now ≤ 2 ^ 16 }
    ensures { IfOk result (λ v. AreExactly (IsDividedAt marks.now) v.items) }
{
    let mut codes = Vec::new(alloc);
    for (k, mark) in marks.iter().enumerate() {
        if let GroupMark::Divided = mark {
            codes.push(k as u16)?;
        }
    }
    Ok(codes)
}

/// The groups that are divided, rising.
pub fn divided_u32(alloc: Global, marks: &[GroupMark]) -> Result<Vec<u32>, AllocError>
    requires { length marks.now ≤ 2 ^ 32 }
    ensures { IfOk result (λ v. AreExactly (IsDividedAt marks.now) v.items) }
{
    let mut codes = Vec::new(alloc);
    for (k, mark) in marks.iter().enumerate() {
        if let GroupMark::Divided = mark {
            codes.push(k as u32)?;
        }
    }
    Ok(codes)
}
