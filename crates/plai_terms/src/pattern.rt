// The texts of patterns.
ghost use Rattle.std.specs.Prelude.{◌≡◌, ◌≤◌, ◌++◌, map, OnOk, OnErr};
ghost use Rattle.std.specs.List.{join_with_byte};
ghost use Rattle.plai_terms.specs.Pattern.{is_reserved, constant_text, skeleton_text, tuple_text, pattern_text, arity_of};

use crate::abs::Abs;
use crate::atom::{write_atom, write_quoted};
use crate::groups::write_groups;
use crate::print::write_integer;
use crate::shape::write_set;
use crate::skeleton::Skeleton;
use std::alloc::{AllocError, Global};

fn is_reserved(name: &[u8]) -> bool
    ensures { result ≡ is_reserved name.now }
{
    name == b"any".as_slice() || name == b"int".as_slice() || name == b"atm".as_slice()
}

// An atom that is no name of a set of terms.
fn write_constant(name: &[u8], out: &mut Vec<u8>) -> Result<(), AllocError>
    ensures { OnOk result (out.new.items ≡ out.old.items ++ constant_text name.now) }
{
    if is_reserved(name) {
        return write_quoted(name, out);
    }
    write_atom(name, out)
}

#[cycle(write)]
fn write_skeleton(skeleton: &Skeleton, out: &mut Vec<u8>) -> Result<(), AllocError>
    ensures { OnOk result (out.new.items ≡ out.old.items ++ skeleton_text skeleton.now) }
{
    match skeleton {
        Skeleton::Any => out.extend_from_slice(b"any"),
        Skeleton::Integer => out.extend_from_slice(b"int"),
        Skeleton::Int(value) => write_integer(*value, out),
        Skeleton::Atom(name) => write_constant(name.as_slice(), out),
        Skeleton::Compound(name, args) => {
            write_atom(name.as_slice(), out)?;
            out.push(b'(')?;
            write_skeletons(args.as_slice(), out)?;
            out.push(b')')?;
            Ok(())
        }
    }
}

#[cycle(write)]
fn write_skeletons(skeletons: &[Skeleton], out: &mut Vec<u8>) -> Result<(), AllocError>
    ensures { OnOk result (out.new.items ≡ out.old.items ++ join_with_byte 44 (map skeleton_text skeletons.now)) }
{
    for (i, skeleton) in skeletons.iter().enumerate() {
        if i > 0 {
            out.push(b',')?;
        }
        write_skeleton(skeleton, out)?;
    }
    Ok(())
}

fn write_tuple(skeletons: &[Skeleton], out: &mut Vec<u8>) -> Result<(), AllocError>
    ensures { OnOk result (out.new.items ≡ out.old.items ++ tuple_text skeletons.now) }
{
    out.push(b'(')?;
    write_skeletons(skeletons, out)?;
    out.push(b')')?;
    Ok(())
}

// The text of a pattern; a part of it may have been appended after want of memory.
fn write_abs(alloc: Global, abs: &Abs, out: &mut Vec<u8>) -> Result<(), AllocError>
    requires { arity_of abs.now ≤ 16 }
    ensures { OnOk result (out.new.items ≡ out.old.items ++ pattern_text abs.now) }
{
    match abs {
        Abs::Nothing => out.extend_from_slice(b"none"),
        Abs::Pos(arity, masks) => write_set(alloc, *arity, masks.as_slice(), out),
        Abs::Groups(_, groups, free) => write_groups(alloc, groups.as_slice(), *free, out),
        Abs::Terms(skeletons) => write_tuple(skeletons.as_slice(), out),
    }
}

/// Appends the text of a pattern of at most 16 arguments: `none`; a set of assignments as `t`, `f` or
/// `(i Y N)`, by the least argument on which it depends; sharing groups and free arguments as
/// `sh={1,1.2} fr={1}`; terms cut at a depth as `(f(any),int)`. Arguments are numbered from 1.
///
/// After want of memory `out` is as before.
pub fn print_abs(alloc: Global, abs: &Abs, out: &mut Vec<u8>) -> Result<(), AllocError>
    requires { arity_of abs.now ≤ 16 }
    ensures ok { OnOk result (out.new.items ≡ out.old.items ++ pattern_text abs.now) }
    ensures err { OnErr result (out.new.items ≡ out.old.items) }
{
    let mut text = Vec::new(alloc);
    write_abs(alloc, abs, &mut text)?;
    out.extend_from_slice(&text)
}
