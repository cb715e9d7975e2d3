// Faults one by one: of each write, each read of the script, each read of a file; files cut off; and what stands behind a stop.
use crate::world::{File, edited, files_of, outcome, status};
use plai_base::{MemoryLibrary, MemorySink, MemorySource};
use std::alloc::{AllocError, Global};
use std::test::Fail;

/// Two predicates that call each other, and a fact.
const CYCLE: &[u8] = b":- module(m, []).\n:- entry p(X). p(X) :- q(X). q(X) :- p(X). q(a).";

/// The cycle, and a module that nothing imports.
const FILES: [File<'_>; 2] = [("a.pl", CYCLE), ("b.pl", b":- module(n, []).")];

/// The fact goes and comes back.
const EDITS: &[u8] = b"del(m,q/1,2).\nadd(m,q(a)).";

/// What is printed of the cycle and these edits.
const WHOLE: &[u8] = b"edit 0
row m:p/1 call t answer (1 t f)
row m:q/1 call t answer (1 t f)
end
edit 1
row m:p/1 call t answer none
row m:q/1 call t answer none
end
edit 2
row m:p/1 call t answer (1 t f)
row m:q/1 call t answer (1 t f)
end
";

/// The status and what is taken, where the library, the script or the sink fails at its call of this number. Script and sink have
/// pieces of one byte. No call has the number 0.
fn failing(
    alloc: Global,
    library: u64,
    script: u64,
    sink: u64,
) -> Result<(u8, Vec<u8>), AllocError> {
    let mut library = MemoryLibrary::new(files_of(alloc, &FILES)?, vec![in alloc; library]?);
    let mut script = MemorySource::new(EDITS.to_vec(alloc)?, 1, vec![in alloc; script]?);
    let mut sink = MemorySink::new(alloc, 1_000, 1, vec![in alloc; sink]?)?;
    let got = status(
        alloc,
        &["a.pl", "b.pl"],
        &mut library,
        &mut script,
        &mut sink,
    );
    Ok((got, sink.bytes().to_vec(alloc)?))
}

#[test]
fn each_write_fails(rt: HostRuntime) -> Result<(), Fail> {
    let alloc = rt.alloc();
    let mut taken = Vec::new(alloc);
    for byte in WHOLE {
        let call = taken.len() as u64 + 1;
        let (got, bytes) = failing(alloc, 0, 0, call)?;
        assert_eq!(rt; got, 6);
        assert!(rt; bytes.as_slice() == taken.as_slice());
        taken.push(*byte)?;
    }
    let call = taken.len() as u64 + 1;
    let (got, bytes) = failing(alloc, 0, 0, call)?;
    assert_eq!(rt; got, 0);
    assert!(rt; bytes.as_slice() == WHOLE);
    Ok(())
}

#[test]
fn each_read_fails(rt: HostRuntime) -> Result<(), Fail> {
    let alloc = rt.alloc();
    for library in [1, 2] {
        let (got, bytes) = failing(alloc, library, 0, 0)?;
        assert_eq!(rt; got, 5);
        assert_eq!(rt; bytes.len(), 0);
    }
    // the last read finds the end
    let reads = EDITS.len() as u64 + 1;
    for before in 0..reads {
        let (got, bytes) = failing(alloc, 0, before + 1, 0)?;
        assert_eq!(rt; got, 5);
        assert_eq!(rt; bytes.len(), 0);
    }
    let (got, bytes) = failing(alloc, 3, reads + 1, 0)?;
    assert_eq!(rt; got, 0);
    assert!(rt; bytes.as_slice() == WHOLE);
    Ok(())
}

/// The statuses of the cycle's file, cut at each byte, are those that an independent implementation of the definitions gives.
#[test]
fn a_file_is_cut_at_each_byte(rt: HostRuntime) -> Result<(), Fail> {
    let alloc = rt.alloc();
    let want = b"333333333333333330033333333333330033333333333300333333333333003333";
    let mut text = Vec::new(alloc);
    for (byte, digit) in CYCLE.iter().zip(want) {
        let (got, bytes) = outcome(alloc, &["a.pl"], &[("a.pl", text.as_slice())])?;
        assert_eq!(rt; got, digit.saturating_sub(b'0'));
        assert_eq!(rt; bytes.starts_with(b"refused 'a.pl' "), got == 3);
        text.push(*byte)?;
    }
    Ok(())
}

#[test]
fn a_table_comes_behind_a_stop(rt: HostRuntime) -> Result<(), Fail> {
    let alloc = rt.alloc();
    let text =
        b":- module(m, []).\n:- entry p. p :- q(f(A1,A2,A3,A4,A5,A6,A7,A8,A9,A10,A11,A12,A13,A14,A15,A16,A17)). q(_).";
    let want =
        b"edit 0\nstopped groups 65536\nend\nedit 1\nrow m:p/0 call sh={} fr={} answer none\nrow m:q/1 call sh={1} fr={} answer none\nend\n";
    let files: [File<'_>; 1] = [("a.pl", text.as_slice())];
    let (got, bytes) = edited(
        alloc,
        &["--domain", "share", "a.pl"],
        &files,
        b"drop(m,q/1).",
    )?;
    assert_eq!(rt; got, 1);
    assert!(rt; bytes.as_slice() == want.as_slice());
    Ok(())
}
