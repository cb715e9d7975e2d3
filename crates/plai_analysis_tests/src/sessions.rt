// The rows and the verdicts that a session gives print as its table does.
ghost use Rattle.std.specs.Prelude.{◌≡◌, ◌<◌, ◌^◌, length, IfOk};
ghost use Rattle.plai_script.specs.Readable.{IsReadableEdit};

use crate::analysed::loaded;
use plai_base::Steps;
use plai_clauses::{EditCause, Program};
use plai_depth::DepthK;
use plai_domain::{Domain, Tally};
use plai_pos::Ground;
use plai_render::render_table;
use plai_script::{Edit, read_script};
use plai_session::Session;
use plai_share::ShareFree;
use std::alloc::{AllocError, Global};
use std::marker::Brand;
use std::sync::ledger::{Blank, Ledger};
use std::test::Fail;

/// Appends the block of the session's rows and verdicts, or `none` where it has none.
fn write_block<D: Domain>(
    alloc: Global,
    number: u64,
    session: &Session<D>,
    out: &mut Vec<u8>,
) -> Result<(), AllocError> {
    match (session.rows(alloc)?, session.verdicts(alloc)?) {
        (Some(rows), Some(verdicts)) => {
            let checks = session.program().checks();
            render_table(alloc, number, &rows, checks, &verdicts, out)
        }
        _ => out.extend_from_slice(b"none\n"),
    }
}

/// Carries out the item and appends the block.
fn write_item<D: Domain, L: Ledger>(
    alloc: Global,
    number: u64,
    session: &mut Session<D>,
    item: &Result<Edit, EditCause>,
    steps: &mut Steps<L>,
    out: &mut Vec<u8>,
) -> Result<(), AllocError>
    requires { IfOk item.now IsReadableEdit }
{
    if let Ok(edit) = item {
        session.edit(alloc, number, edit, &mut Tally::new(), steps)?;
    }
    write_block(alloc, number, session, out)
}

/// The blocks of a program and of a script's edits.
fn blocks_counted<D: Domain, L: Ledger>(
    alloc: Global,
    domain: D,
    limit: u64,
    program: Program,
    script: &[u8],
    blank: Blank,
) -> Result<Vec<u8>, Fail>
    requires short { length script.now < 2 ^ 31 }
    requires name { blank.name ≡ L.name }
    requires parts { blank.parts ≡ L.parts }
    requires some { 0 < blank.parts }
{
    let mut steps = Steps::<L>::new(blank);
    let items = read_script(alloc, script)?;
    let (mut session, _) = Session::open(
        alloc,
        domain,
        program,
        limit,
        &mut Tally::new(),
        &mut steps,
    )?;
    let mut out = Vec::new(alloc);
    write_block(alloc, 0, &session, &mut out)?;
    let mut number: u64 = 0;
    for item in items.as_slice() {
        number = number.wrapping_add(1);
        write_item(alloc, number, &mut session, item, &mut steps, &mut out)?;
    }
    Ok(out)
}

fn blocks<D: Domain>(
    alloc: Global,
    domain: D,
    limit: u64,
    text: &str,
    script: &[u8],
) -> Result<Vec<u8>, Fail>
    requires { length script.now < 2 ^ 31 }
{
    let program = loaded(alloc, text)?;
    blocks_counted::<D, Brand>(alloc, domain, limit, program, script, Blank::new(1))
}

/// An assertion that more clauses leave open.
const ASSERTED: &str = ":- module(m, []). :- entry p(X). :- check success p(X) => ground(X). p(a).";

#[test]
fn rows_and_verdicts_of_edits(rt: HostRuntime) -> Result<(), Fail> {
    let want = b"edit 0
row m:p/1 call t answer (1 t f)
check m 1 checked
end
edit 1
row m:p/1 call t answer t
check m 1 check
end
edit 2
row m:p/1 call t answer (1 t f)
check m 1 checked
end
";
    let script = b"add(m,p(_)). del(m,p/1,2).";
    let seen = blocks(rt.alloc(), Ground::new(), 100, ASSERTED, script)?;
    assert!(rt; seen.as_slice() == want.as_slice());
    Ok(())
}

/// `u/1` has a row on the way that no call reaches behind it. The rows that are made don't stand in the order of a table.
const UNREACHED: &str = ":- module(m, []). :- entry q(X). :- entry p(X). :- entry a.
    p(a). p(Y) :- p(X), u(X). q(X) :- p(X). u(_). a :- q(_).";

#[test]
fn rows_that_calls_reach_in_order(rt: HostRuntime) -> Result<(), Fail> {
    let alloc = rt.alloc();
    let ground = b"edit 0
row m:a/0 call t answer t
row m:p/1 call t answer t
row m:q/1 call t answer t
row m:u/1 call t answer t
end
";
    let share = b"edit 0
row m:a/0 call sh={} fr={} answer sh={} fr={}
row m:p/1 call sh={1} fr={1} answer sh={1} fr={}
row m:p/1 call sh={1} fr={} answer sh={1} fr={}
row m:q/1 call sh={1} fr={1} answer sh={1} fr={}
row m:q/1 call sh={1} fr={} answer sh={1} fr={}
row m:u/1 call sh={1} fr={} answer sh={1} fr={}
end
";
    let depth = b"edit 0
row m:a/0 call () answer ()
row m:p/1 call (any) answer (any)
row m:q/1 call (any) answer (any)
row m:u/1 call (any) answer (any)
end
";
    assert!(rt; blocks(alloc, Ground::new(), 100, UNREACHED, b"")?.as_slice() == ground.as_slice());
    assert!(rt;
        blocks(alloc, ShareFree::new(), 100, UNREACHED, b"")?.as_slice() == share.as_slice()
    );
    assert!(rt; blocks(alloc, DepthK::new(2), 100, UNREACHED, b"")?.as_slice() == depth.as_slice());
    Ok(())
}

#[test]
fn no_rows_behind_a_stop(rt: HostRuntime) -> Result<(), Fail> {
    let want = b"none
edit 1
row m:p/1 call t answer none
end
";
    let text = ":- module(m, []). :- entry p(X). p(X) :- q(X). q(_).";
    let seen = blocks(rt.alloc(), Ground::new(), 1, text, b"del(m,p/1,1).")?;
    assert!(rt; seen.as_slice() == want.as_slice());
    Ok(())
}
