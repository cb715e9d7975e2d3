//! The edits.
ghost use Rattle.std.specs.Prelude.{◌≡◌, ◌<◌, ◌^◌, ◌++◌, ◌∷◌, [], Ok, OnOk, IfOk, All};
ghost use Rattle.plai_make.specs.Programs.{removal, addition, made_edits};
ghost use Rattle.plai_script.specs.Readable.{IsReadableEdit};

use crate::clauses::{fact_args, home_name, pred_name};
use crate::draws::{behind_twice, chosen, following};
use plai_clauses::EditCause;
use plai_script::Edit;
use plai_terms::{NonEmpty, ReadTerm, Term};
use std::alloc::{AllocError, Global};

/// The edit that takes the first clause of a predicate away.
fn removal(alloc: Global, number: u32) -> Result<Edit, AllocError>
    ensures { IfOk result (λ edit. edit ≡ removal number) }
{
    Ok(Edit::Del {
        module: home_name(alloc)?,
        name: pred_name(alloc, number)?,
        arity: 2,
        number: 1,
    })
}

/// The edit that adds a predicate's fact as its last clause.
fn addition(alloc: Global, number: u32) -> Result<Edit, AllocError>
    ensures { IfOk result (λ edit. edit ≡ addition number) }
{
    let args = NonEmpty::new(fact_args(alloc)?);
    let clause = ReadTerm {
        term: Term::Compound(pred_name(alloc, number)?, args),
        variables: 1,
    };
    Ok(Edit::Add {
        module: home_name(alloc)?,
        clause,
    })
}

fn push_pair(
    alloc: Global,
    number: u32,
    edits: &mut Vec<Result<Edit, EditCause>>,
) -> Result<(), AllocError>
    ensures { OnOk result (edits.new.items ≡ edits.old.items ++ Ok (removal number) ∷ Ok (addition number) ∷ []) }
{
    edits.push(Ok(removal(alloc, number)?))?;
    edits.push(Ok(addition(alloc, number)?))?;
    Ok(())
}

/// 50 edits on the made program of so many predicates, from 1 to 2,147,483,647. The first of two takes away the first clause of
/// a predicate that is drawn, and the second adds its fact as the last clause.
pub fn made_edits(alloc: Global, count: u32) -> Result<Vec<Result<Edit, EditCause>>, AllocError>
    requires some { 0 < count }
    requires few { count < 2 ^ 31 }
    ensures edits { IfOk result (λ edits. edits.items ≡ made_edits count) }
    ensures readable { IfOk result (λ edits. All (λ edit. IfOk edit IsReadableEdit) edits.items) }
{
    let mut edits = Vec::new(alloc);
    let mut state = behind_twice(count);
    for _ in 0..25_u32 {
        let drawn = following(state);
        push_pair(alloc, chosen(drawn, count), &mut edits)?;
        state = following(drawn);
    }
    Ok(edits)
}
