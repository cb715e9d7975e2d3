ghost use Rattle.std.specs.Prelude.{◌≡◌, ◌<◌, ◌^◌, ◌++◌, OnOk};
ghost use Rattle.plai_render.specs.Block.{verdict_text, check_text, number_behind, checks_text};

use itoa::Buffer;
use plai_assert::Verdict;
use plai_clauses::Check;
use plai_terms::{Name, print_atom};
use std::alloc::{AllocError, Global};

// A part of the text may have been appended after want of memory in the calls that begin with `write_`.

fn write_verdict(verdict: Verdict, out: &mut Vec<u8>) -> Result<(), AllocError>
    ensures { OnOk result (out.new.items ≡ out.old.items ++ verdict_text verdict) }
{
    match verdict {
        Verdict::Checked => out.extend_from_slice(b"checked"),
        Verdict::False => out.extend_from_slice(b"false"),
        Verdict::Check => out.extend_from_slice(b"check"),
    }
}

fn write_check(
    alloc: Global,
    home: &Name,
    number: u64,
    verdict: Verdict,
    out: &mut Vec<u8>,
) -> Result<(), AllocError>
    ensures { OnOk result (out.new.items ≡ out.old.items ++ check_text home.now number verdict) }
{
    out.extend_from_slice(b"check ")?;
    print_atom(alloc, home, out)?;
    out.push(b' ')?;
    let mut buffer = Buffer::new();
    out.extend_from_slice(buffer.format(number).as_bytes())?;
    out.push(b' ')?;
    write_verdict(verdict, out)?;
    out.push(b'\n')?;
    Ok(())
}

/// The number of an assertion of a module, behind one of that module and number.
fn number_behind(before: &[u8], number: u64, home: &Name) -> u64
    requires { number < 2 ^ 63 }
    ensures { result ≡ number_behind before.now number home.now }
{
    if *before == *home.as_slice() {
        number + 1
    } else {
        1
    }
}

/// Appends a line for each assertion that has a verdict.
pub(crate) fn write_checks(
    alloc: Global,
    checks: &[Check],
    verdicts: &[Verdict],
    out: &mut Vec<u8>,
) -> Result<(), AllocError>
    ensures { OnOk result (out.new.items ≡ out.old.items ++ checks_text checks.now verdicts.now) }
{
    let mut before: &[u8] = &[];
    let mut number: u64 = 0;
    let mut left = verdicts;
    for check in checks {
        match left.split_first() {
            Some((verdict, others)) => {
                number = number_behind(before, number, &check.module);
                write_check(alloc, &check.module, number, *verdict, out)?;
                before = check.module.as_slice();
                left = others;
            }
            None => return Ok(()),
        }
    }
    Ok(())
}
