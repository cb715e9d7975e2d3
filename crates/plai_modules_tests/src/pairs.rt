// Of two refused terms the first counts, where those of the first pass come before those of the second.
use crate::shown::answer;
use std::alloc::{AllocError, Global};
use std::test::Fail;

/// Terms of which each is refused: in the first pass, and in the second one.
const FAULTS: [(&str, bool, &str); 13] = [
    ("p({).", true, "bad_character"),
    ("p :- 'a", true, "open_quote"),
    ("p :- .", true, "syntax"),
    (":- foo.", true, "bad_directive"),
    (":- op(1201,xfx,a).", true, "bad_operator"),
    (":- entry p(a).", true, "bad_property"),
    ("p :- 1.", true, "not_a_clause"),
    ("p :- call(q).", true, "unsupported"),
    (
        "p(1,2,3,4,5,6,7,8,9,10,11,12,13,14,15,16,17).",
        true,
        "pred_arity",
    ),
    (":- module(m,[]).", true, "bad_directive"),
    (":- use_module(zz).", false, "unknown_module"),
    (":- use_module(l,[r/0]).", false, "not_exported"),
    (":- use_module(l,[q/0,p/0]).", false, "import_clash"),
];

/// The file and the place of the first refused one of two terms, the second being in the same file or in the next one.
fn first_refused(first: bool, second: bool, same_file: bool) -> (bool, &'static str) {
    if first || !second {
        (true, "1 3 ")
    } else if same_file {
        (false, "1 4 ")
    } else {
        (false, "2 3 ")
    }
}

/// Files with two refused terms, and what they give.
fn pair(
    alloc: Global,
    first: &(&str, bool, &str),
    second: &(&str, bool, &str),
    same_file: bool,
) -> Result<(String, String), AllocError> {
    let between = if same_file {
        "\n"
    } else {
        "----:- module(n,[]). p.\n"
    };
    let files = format!(in alloc;
        ":- module(m,[]). p.\n{}{between}{}----:- module(l,[p/0,q/0]).",
        first.0, second.0
    )?;
    let (is_first, place) = first_refused(first.1, second.1, same_file);
    let cause = if is_first { first.2 } else { second.2 };
    Ok((files, format!(in alloc; "{place}{cause}")?))
}

#[test]
fn of_two_refused_terms_the_first_counts(rt: HostRuntime) -> Result<(), Fail> {
    let alloc = rt.alloc();
    for first in &FAULTS {
        for second in &FAULTS {
            for same_file in [true, false] {
                let (files, wanted) = pair(alloc, first, second, same_file)?;
                let found = answer(alloc, files.as_str())?;
                assert_eq!(rt; found.as_slice(), wanted.as_bytes(), "{files}");
            }
        }
    }
    Ok(())
}
