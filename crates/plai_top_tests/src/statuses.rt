// Words, limits and faults.
use crate::world::{EMPTY, FACTS, File, files_of, gives, outcome, status};
use plai_base::{HonestLibrary, MemoryLibrary, MemorySink, MemorySource};
use std::alloc::Global;
use std::test::Fail;

#[test]
fn two_files_are_one_program(rt: HostRuntime) -> Result<(), Fail> {
    let alloc = rt.alloc();
    let sort =
        b":- module(sort, [qsort/2]).\n:- use_module(lists, [app/3]).\n:- entry qsort(X, Y) : (ground(X), var(Y)).\nqsort([], []).\nqsort([H|T], S) :- part(T, H, L, G), qsort(L, SL), qsort(G, SG), app(SL, [H|SG], S).\npart([], _, [], []).\npart([X|Xs], P, [X|L], G) :- X =< P, !, part(Xs, P, L, G).\npart([X|Xs], P, L, [X|G]) :- X > P, part(Xs, P, L, G).\n";
    let lists =
        b":- module(lists, [app/3]).\napp([], L, L).\napp([H|T], L, [H|R]) :- app(T, L, R).\n";
    let want =
        b"edit 0\nrow lists:app/3 call (1 (2 t f) f) answer (1 (2 (3 t f) f) f)\nrow sort:part/4 call (1 (2 t f) f) answer (1 (2 (3 (4 t f) f) f) f)\nrow sort:qsort/2 call (1 t f) answer (1 (2 t f) f)\nend\n";
    let files: [File<'_>; 2] = [("sort.pl", sort.as_slice()), ("lists.pl", lists.as_slice())];
    assert!(rt; gives(alloc, &["sort.pl", "lists.pl"], &files, 0, want)?);
    Ok(())
}

#[test]
fn words_and_limits(rt: HostRuntime) -> Result<(), Fail> {
    let alloc = rt.alloc();
    let called = b":- module(m, []). :- entry p. p :- q. q.";
    let rows = b"edit 0\nrow m:p/0 call t answer t\nrow m:q/0 call t answer t\nend\n";
    let shared =
        b"edit 0\nrow m:p/0 call sh={} fr={} answer sh={} fr={}\nrow m:q/0 call sh={} fr={} answer sh={} fr={}\nend\n";
    let cut = b"edit 0\nrow m:p/0 call () answer ()\nrow m:q/0 call () answer ()\nend\n";
    let cases: [(&[&str], u8, &[u8]); 19] = [
        (&[], 2, b""),
        (&["-x"], 2, b""),
        (&["--domain", "sharing", "a.pl"], 2, b""),
        (&["--depth", "9", "a.pl"], 2, b""),
        (&["--rows", "0", "a.pl"], 2, b""),
        (&["--depth", "2", "--depth", "3", "a.pl"], 2, b""),
        (&["--make", "5", "a.pl"], 2, b""),
        (&["--depth", "+2", "a.pl"], 2, b""),
        (&["--dom", "share", "a.pl"], 2, b""),
        (&["a.pl", "--domain=share"], 0, shared),
        (&["--domain", "depth", "a.pl"], 0, cut),
        (&["--rows", "007", "a.pl"], 0, rows),
        (&["--depth=2", "--domain=ground", "a.pl"], 0, rows),
        (&["--", "--x.pl"], 0, b"edit 0\nend\n"),
        (
            &["--rows", "1", "a.pl"],
            1,
            b"edit 0\nstopped rows 1\nend\n",
        ),
        (&["a.pl", "--rows=2"], 0, rows),
        (&["a.pl", "a.pl"], 3, b"refused 'a.pl' 1 duplicate_module\n"),
        (&["check.pl"], 0, b"edit 0\ncheck m 1 checked\nend\n"),
        (&["none.pl"], 3, b"refused 'none.pl' 1 no_module\n"),
    ];
    let files: [File<'_>; 3] = [
        ("a.pl", called.as_slice()),
        ("--x.pl", EMPTY),
        (
            "check.pl",
            b":- module(m, []). :- check success p(X) => ground(X).",
        ),
    ];
    for (words, status, want) in cases {
        assert!(rt; gives(alloc, words, &files, status, want)?);
    }
    Ok(())
}

#[test]
fn sizes_of_the_input(rt: HostRuntime) -> Result<(), Fail> {
    let alloc = rt.alloc();
    let long = vec![in alloc; b' '; 4_194_305]?;
    let files: [File<'_>; 2] = [("a.pl", EMPTY), ("long.pl", long.as_slice())];
    let most = ["a.pl"; 64];
    let over = ["a.pl"; 65];
    assert!(rt;
        gives(
            alloc,
            &most,
            &files,
            3,
            b"refused 'a.pl' 1 duplicate_module\n"
        )?
    );
    assert!(rt; gives(alloc, &over, &files, 4, b"")?);
    assert!(rt; gives(alloc, &["a.pl", "long.pl"], &files, 4, b"")?);
    assert!(rt; gives(alloc, &["long.pl"], &files, 4, b"")?);
    Ok(())
}

/// A module of predicates, each of which calls the next.
fn chain(alloc: Global, length: u32) -> Result<Vec<u8>, Fail> {
    let mut text = format!(in alloc; ":- module(m, []). :- entry p0(X). p{length}(a).\n")?;
    for i in 0..length {
        let next = i + 1;
        let clause = format!(in alloc; "p{i}(X) :- p{next}(X).\n")?;
        text.push_str(clause.as_str())?;
    }
    Ok(text.as_str().as_bytes().to_vec(alloc)?)
}

#[test]
fn a_chain_of_predicates(rt: HostRuntime) -> Result<(), Fail> {
    let alloc = rt.alloc();
    let text = chain(alloc, 199)?;
    let files: [File<'_>; 1] = [("a.pl", text.as_slice())];
    let (status, bytes) = outcome(alloc, &["a.pl"], &files)?;
    assert_eq!(rt; status, 0);
    assert_eq!(rt; bytes.len(), 6901);
    assert_eq!(rt; bytes.iter().filter(|byte| **byte == b'\n').count(), 202);
    assert!(rt;
        gives(
            alloc,
            &["--rows", "199", "a.pl"],
            &files,
            1,
            b"edit 0\nstopped rows 199\nend\n"
        )?
    );
    Ok(())
}

#[test]
fn a_read_fails(rt: HostRuntime) -> Result<(), Fail> {
    let alloc = rt.alloc();
    for (failing_file, failing_script) in [(1, 9), (2, 9), (9, 1)] {
        let files: [File<'_>; 2] = [("a.pl", FACTS), ("b.pl", b":- module(n, []).")];
        let mut library = MemoryLibrary::new(
            files_of(alloc, &files)?,
            vec![in alloc; failing_file]?,
        );
        let mut script = MemorySource::new(Vec::new(alloc), 1, vec![in alloc; failing_script]?);
        let mut sink = MemorySink::new(alloc, 100, 3, Vec::new(alloc))?;
        assert_eq!(rt;
            status(
                alloc,
                &["a.pl", "b.pl"],
                &mut library,
                &mut script,
                &mut sink
            ),
            5
        );
        assert_eq!(rt; sink.bytes().len(), 0);
    }
    Ok(())
}

#[test]
fn a_write_fails(rt: HostRuntime) -> Result<(), Fail> {
    let alloc = rt.alloc();
    for (text, want) in [(FACTS, b"edi".as_slice()), (b"p(a).", b"ref")] {
        let mut library = MemoryLibrary::new(files_of(alloc, &[("a.pl", text)])?, Vec::new(alloc));
        let mut script = MemorySource::new(Vec::new(alloc), 1, Vec::new(alloc));
        let mut sink = MemorySink::new(alloc, 100, 3, vec![in alloc; 2]?)?;
        assert_eq!(rt;
            status(alloc, &["a.pl"], &mut library, &mut script, &mut sink),
            6
        );
        assert_eq!(rt; sink.bytes(), want);
    }
    Ok(())
}
