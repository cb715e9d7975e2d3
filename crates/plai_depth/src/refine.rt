// What the actions of builtins do to the skeletons of a clause's variables.
ghost use Rattle.std.specs.Prelude.{◌≡◌, ◌≤◌, IfOk, length, Some, None};
ghost use Rattle.std.specs.Option.{option_map};
ghost use Rattle.plai_domain.specs.Instances.{acts_within};
ghost use Rattle.plai_terms.specs.declared.skeleton.Skeleton.{Integer};
ghost use Rattle.plai_depth_laws.specs.Moves.{push};
ghost use Rattle.plai_depth_laws.specs.Operations.{if_free, refine_of, unify_of};
ghost use Rattle.plai_depth.specs.Values.{where_kept};

use crate::cuts::cut_shared;
use crate::lattice::meet;
use crate::properties::is_any;
use crate::pulls::pull;
use crate::pushes::push;
use crate::shared::Shared;
use crate::state::share_all;
use plai_domain::Action;
use plai_terms::{Skeleton, Term};
use std::alloc::{AllocError, Global};

/// The skeletons, cut, where both terms lie below the meet of what they were.
fn unify(
    alloc: Global,
    depth: u32,
    first: &Term,
    second: &Term,
    skeletons: &[Shared],
) -> Result<Option<Vec<Shared>>, AllocError>
    ensures { IfOk result (λ next. option_map (λ v. v.items) next ≡ unify_of depth first.now second.now skeletons.now) }
{
    let left = pull(alloc, skeletons, first)?;
    let right = pull(alloc, skeletons, second)?;
    let Some(met) = meet(alloc, &left, &right)? else {
        return Ok(None);
    };
    let mut next = share_all(alloc, skeletons)?;
    if !push(alloc, first, &mut next, &met)? {
        return Ok(None);
    }
    if !push(alloc, second, &mut next, &met)? {
        return Ok(None);
    }
    Ok(Some(cut_shared(alloc, depth, next.as_slice())?))
}

/// The skeletons, where the term lies below `int`.
fn bind_integer(
    alloc: Global,
    term: &Term,
    skeletons: &[Shared],
) -> Result<Option<Vec<Shared>>, AllocError>
    ensures { IfOk result (λ next. option_map (λ v. v.items) next ≡ push term.now skeletons.now Integer) }
{
    let mut next = share_all(alloc, skeletons)?;
    if push(alloc, term, &mut next, &Skeleton::Integer)? {
        Ok(Some(next))
    } else {
        Ok(None)
    }
}

/// Whether the term is a variable whose skeleton is `any`.
fn is_free(term: &Term, skeletons: &[Shared]) -> bool
    ensures { if_free term.now skeletons.now ≡ where_kept result skeletons.now }
{
    match term {
        Term::Var(number) => match skeletons.get(*number as usize) {
            None => true,
            Some(skeleton) => is_any(skeleton.as_skeleton()),
        },
        _ => false,
    }
}

/// What the action leaves of the skeletons, or none.
pub(crate) fn refine(
    alloc: Global,
    depth: u32,
    args: &[Term],
    action: &Action,
    skeletons: &[Shared],
) -> Result<Option<Vec<Shared>>, AllocError>
    requires { acts_within (length args.now) action.now }
    ensures { IfOk result (λ next. option_map (λ v. v.items) next ≡ refine_of depth args.now action.now skeletons.now) }
{
    match action {
        Action::Fail => Ok(None),
        Action::Unify(first, second) | Action::Same(first, second) => {
            let (first, second) = (&args[*first as usize - 1], &args[*second as usize - 1]);
            unify(alloc, depth, first, second, skeletons)
        }
        Action::BindInt(number) => bind_integer(alloc, &args[*number as usize - 1], skeletons),
        Action::Var(number) => {
            if is_free(&args[*number as usize - 1], skeletons) {
                Ok(Some(share_all(alloc, skeletons)?))
            } else {
                Ok(None)
            }
        }
        Action::Ground(_) | Action::Nonvar(_) | Action::Havoc(_) => {
            Ok(Some(share_all(alloc, skeletons)?))
        }
    }
}
