// Scripts of edits.
use crate::world::{File, edited};
use std::test::Fail;

/// A module with a fact and an entry.
const FACT: &[u8] = b":- module(m, []). :- entry p(X). p(a).";

/// The block of the fact's table as that of the loaded program.
const LOADED: &str = "edit 0\nrow m:p/1 call t answer (1 t f)\nend\n";

/// Words, a script, the status, and what is printed behind the first block.
type Case<'a> = (&'a [&'a str], &'a [u8], u8, &'a str);

#[test]
fn blocks_of_edits(rt: HostRuntime) -> Result<(), Fail> {
    let alloc = rt.alloc();
    let cases: [Case<'_>; 6] = [
        (&["a.pl"], b"% nothing\n", 0, ""),
        (
            &["a.pl"],
            b"add(m,p(_)). del(m,p/1,2). del(m,p/1,2). drop(m,p/1).",
            1,
            "edit 1\nrow m:p/1 call t answer t\nend\nedit 2\nrow m:p/1 call t answer (1 t f)\nend\nedit 3\nrefused no_such_clause 2 1\nend\nedit 4\nrow m:p/1 call t answer none\nend\n",
        ),
        (
            &["a.pl"],
            b"entry(n,p(X)). foo. all([add(m,p(b)),del(m,p/1,3)]). all([add(m,(p(X):-q(X))),add(m,q(c))]). unentry(m,1).",
            1,
            "edit 1\nrefused unknown_module\nend\nedit 2\nrefused bad_edit\nend\nedit 3\nrefused no_such_clause 3 2\nend\nedit 4\nrow m:p/1 call t answer (1 t f)\nrow m:q/1 call t answer (1 t f)\nend\nedit 5\nend\n",
        ),
        (
            &["a.pl"],
            b"add(m,q(b)). add(m,(p(X):-",
            1,
            "edit 1\nrow m:p/1 call t answer (1 t f)\nend\nedit 2\nrefused syntax\nend\n",
        ),
        (
            &["--rows", "1", "a.pl"],
            b"add(m,(p(X):-q(X))). del(m,p/1,2).",
            1,
            "edit 1\nstopped rows 1\nend\nedit 2\nrow m:p/1 call t answer (1 t f)\nend\n",
        ),
        (
            &["a.pl"],
            b"add(m,p(a)).",
            0,
            "edit 1\nrow m:p/1 call t answer (1 t f)\nend\n",
        ),
    ];
    let files: [File<'_>; 1] = [("a.pl", FACT)];
    for (words, script, status, want) in cases {
        let (got, bytes) = edited(alloc, words, &files, script)?;
        let text = format!(in alloc; "{LOADED}{want}")?;
        assert_eq!(rt; got, status);
        assert!(rt; bytes.as_slice() == text.as_str().as_bytes());
    }
    Ok(())
}

#[test]
fn scripts_that_are_not_carried_out(rt: HostRuntime) -> Result<(), Fail> {
    let alloc = rt.alloc();
    let cases: [(&[u8], u8, &[u8]); 2] = [
        (
            b"add(m,q(b)). add(m,'x",
            3,
            b"refused script 2 open_quote 19\n",
        ),
        (b"foo. 0'", 3, b"refused script 2 bad_escape 5\n"),
    ];
    let files: [File<'_>; 1] = [("a.pl", FACT)];
    for (script, status, want) in cases {
        let (got, bytes) = edited(alloc, &["a.pl"], &files, script)?;
        assert_eq!(rt; got, status);
        assert!(rt; bytes.as_slice() == want);
    }
    Ok(())
}
