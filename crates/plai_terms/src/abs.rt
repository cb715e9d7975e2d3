ghost use Rattle.std.specs.Prelude.{◌≡◌, IfOk};

use crate::listed::Listed;
use crate::skeleton::Skeleton;
use plai_base::Mask;
use std::alloc::{AllocError, Global};

/// A pattern: what the arguments of a call may be, or those of an answer.
///
/// Arguments are slots, numbered from 0.
#[derive(Debug, PartialEq, Eq, Hash, Drop)]
pub enum Abs {
    /// No answer.
    Nothing,
    /// Groundness: of so many arguments, the sets of those that may be ground together, each set a mask.
    Pos(u32, Listed<Mask>),
    /// Sharing and freeness: of so many arguments, the groups of those that may share a variable, and
    /// those that are free variables (Jacobs and Langen 1992; Muthukumar and Hermenegildo 1992).
    Groups(u32, Listed<Mask>, Mask),
    /// A term cut at a depth for each argument.
    Terms(Listed<Skeleton>),
}

fn copy_masks(alloc: Global, masks: &Listed<Mask>) -> Result<Listed<Mask>, AllocError>
    ensures { IfOk result (λ copies. copies ≡ masks.now) }
{
    Ok(Listed::new(Vec::from_slice(alloc, masks.as_slice())?))
}

impl Abs {
    /// An equal pattern.
    pub fn copy(&self, alloc: Global) -> Result<Abs, AllocError>
        ensures { IfOk result (λ abs. abs ≡ self.now) }
    {
        match self {
            Abs::Nothing => Ok(Abs::Nothing),
            Abs::Pos(arity, masks) => Ok(Abs::Pos(*arity, copy_masks(alloc, masks)?)),
            Abs::Groups(arity, groups, free) => Ok(Abs::Groups(
                *arity,
                copy_masks(alloc, groups)?,
                *free,
            )),
            Abs::Terms(skeletons) => {
                Ok(Abs::Terms(Listed::new(Skeleton::copy_all(alloc, skeletons.as_slice())?)))
            }
        }
    }
}
