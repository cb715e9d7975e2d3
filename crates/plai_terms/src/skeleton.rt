ghost use Rattle.std.specs.Prelude.{◌≡◌, IfOk};

use crate::listed::Listed;
use crate::name::Name;
use std::alloc::{AllocError, Global};

/// A term cut at a depth: it stands for a set of terms.
#[derive(Debug, PartialEq, Eq, Hash, Drop)]
pub enum Skeleton {
    /// All terms.
    Any,
    /// All integers.
    Integer,
    /// One integer.
    Int(i128),
    /// One atom.
    Atom(Name),
    /// The compounds of this name whose arguments are in these sets.
    Compound(Name, Listed<Skeleton>),
}

impl Skeleton {
    /// An equal skeleton.
    #[cycle(copy)]
    pub fn copy(&self, alloc: Global) -> Result<Skeleton, AllocError>
        ensures { IfOk result (λ s. s ≡ self.now) }
    {
        match self {
            Skeleton::Any => Ok(Skeleton::Any),
            Skeleton::Integer => Ok(Skeleton::Integer),
            Skeleton::Int(value) => Ok(Skeleton::Int(*value)),
            Skeleton::Atom(name) => Ok(Skeleton::Atom(name.copy(alloc)?)),
            Skeleton::Compound(name, args) => Ok(Skeleton::Compound(
                name.copy(alloc)?,
                Listed::new(Skeleton::copy_all(alloc, args.as_slice())?),
            )),
        }
    }

    /// Equal skeletons, in order.
    #[cycle(copy)]
    pub fn copy_all(alloc: Global, items: &[Skeleton]) -> Result<Vec<Skeleton>, AllocError>
        ensures { IfOk result (λ copies. copies.items ≡ items.now) }
    {
        let mut copies = Vec::new(alloc);
        for item in items {
            copies.push(item.copy(alloc)?)?;
        }
        Ok(copies)
    }
}
