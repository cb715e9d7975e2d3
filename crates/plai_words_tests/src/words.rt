// The settings of words, and the words that form no command.
use plai_words::{DomainName, Files, Settings, Text, WordsFail, settings};
use std::alloc::{AllocError, Global};
use std::test::Fail;

/// What each option stands at, and the names of the files.
fn shown(alloc: Global, settings: &Settings) -> Result<String, AllocError> {
    let mut out = String::from_str(
        alloc,
        match settings.domain {
            DomainName::Ground => "ground",
            DomainName::Share => "share",
            DomainName::Depth => "depth",
        },
    )?;
    let make = settings.make.unwrap_or(0);
    let numbers = format!(in alloc; " {} {} {}:", settings.depth, settings.rows, make)?;
    out.push_str(numbers.as_str())?;
    for file in settings.files.as_slice() {
        out.push_str(" ")?;
        out.push_str(file.as_str())?;
    }
    Ok(out)
}

/// What the words come to, or why they come to nothing.
fn answer(alloc: Global, words: &[&str]) -> Result<String, AllocError> {
    match settings(alloc, words) {
        Ok(settings) => shown(alloc, &settings),
        Err(WordsFail::Refused) => String::from_str(alloc, "refused"),
        Err(WordsFail::Memory) => String::from_str(alloc, "memory"),
    }
}

/// Words, and the domain, the depth, the most rows, the length of the program to be made (0 for none) and the files
/// that they come to.
const COMMANDS: [(&[&str], &str); 22] = [
    (&["a.pl"], "ground 3 20000 0: a.pl"),
    (&["--domain", "ground", "a.pl"], "ground 3 20000 0: a.pl"),
    (&["a.pl", "--domain=share"], "share 3 20000 0: a.pl"),
    (
        &["--domain", "depth", "a.pl", "b.pl"],
        "depth 3 20000 0: a.pl b.pl",
    ),
    (&["--depth", "1", "a.pl"], "ground 1 20000 0: a.pl"),
    (&["--depth=8", "a.pl"], "ground 8 20000 0: a.pl"),
    (&["--rows", "007", "a.pl"], "ground 3 7 0: a.pl"),
    (&["--rows=1", "a.pl"], "ground 3 1 0: a.pl"),
    (&["a.pl", "--rows", "200000"], "ground 3 200000 0: a.pl"),
    (&["--make", "1"], "ground 3 20000 1:"),
    (&["--make=2000", "--depth", "8"], "ground 8 20000 2000:"),
    (&["--", "--x.pl"], "ground 3 20000 0: --x.pl"),
    (&["-"], "ground 3 20000 0: -"),
    (&["a.pl", "a.pl"], "ground 3 20000 0: a.pl a.pl"),
    (&["domain", "--depth", "2"], "ground 2 20000 0: domain"),
    (&["+x"], "ground 3 20000 0: +x"),
    (&["a=b"], "ground 3 20000 0: a=b"),
    (&["--", "--", "-xy"], "ground 3 20000 0: -- -xy"),
    (
        &["b.pl", "-", "--domain", "depth", "--", "--", "-x"],
        "depth 3 20000 0: b.pl - -- -x",
    ),
    (
        &["--rows", "5", "--depth", "2", "--domain", "share", "a.pl"],
        "share 2 5 0: a.pl",
    ),
    (&["--make", "000003", "--"], "ground 3 20000 3:"),
    (&["", "a.pl"], "ground 3 20000 0:  a.pl"),
];

#[test]
fn words_that_form_a_command(rt: HostRuntime) -> Result<(), Fail> {
    let alloc = rt.alloc();
    for (words, wanted) in &COMMANDS {
        let found = answer(alloc, words)?;
        assert_eq!(rt; found.as_str(), *wanted);
    }
    Ok(())
}

/// Words that form no command.
const REFUSED: [&[&str]; 44] = [
    // No file and nothing to be made, or both.
    &[],
    &["--"],
    &["--domain", "share"],
    &["--make", "5", "a.pl"],
    &["--make=5", "--", "a.pl"],
    // A value that isn't one.
    &["--domain", "sharing", "a.pl"],
    &["--domain", "Share", "a.pl"],
    &["--domain=", "a.pl"],
    &["--depth", "0", "a.pl"],
    &["--depth", "9", "a.pl"],
    &["--depth", "+2", "a.pl"],
    &["--depth", "2x", "a.pl"],
    &["--depth=", "a.pl"],
    &["--depth", "", "a.pl"],
    &["--depth", " 2", "a.pl"],
    &["--depth", "0000002", "a.pl"],
    &["--rows", "0", "a.pl"],
    &["--rows", "200001", "a.pl"],
    &["--rows", "1000000", "a.pl"],
    &["--rows=1e3", "a.pl"],
    &["--make", "0"],
    &["--make", "2001"],
    // An option twice, however it is written.
    &["--domain", "ground", "--domain", "ground", "a.pl"],
    &["--depth", "2", "--depth=3", "a.pl"],
    &["--rows=2", "a.pl", "--rows", "2"],
    &["--make", "2", "--make", "2"],
    // A value is missing, or begins with a dash.
    &["a.pl", "--domain"],
    &["a.pl", "--depth"],
    &["a.pl", "--rows"],
    &["--make"],
    &["--domain", "--", "a.pl"],
    &["--depth", "-2", "a.pl"],
    &["--depth=-2", "a.pl"],
    &["--rows", "--depth", "2", "a.pl"],
    &["--domain", "-", "a.pl"],
    // Other words that begin with a dash.
    &["--dom", "share", "a.pl"],
    &["--domains", "share", "a.pl"],
    &["--Domain", "share", "a.pl"],
    &["--file", "a.pl"],
    &["-d", "share", "a.pl"],
    &["-depth", "2", "a.pl"],
    &["--help"],
    &["---", "a.pl"],
    &["a.pl", "-h"],
];

#[test]
fn words_that_form_no_command(rt: HostRuntime) -> Result<(), Fail> {
    let alloc = rt.alloc();
    for words in &REFUSED {
        let found = answer(alloc, words)?;
        assert_eq!(rt; found.as_str(), "refused", "{words:?}");
    }
    Ok(())
}

#[test]
fn files_are_their_names(rt: HostRuntime) -> Result<(), Fail> {
    let alloc = rt.alloc();
    let name = String::from_str(alloc, "a.pl")?;
    let files = Files::new(vec![in alloc; Text::new(name)]?);
    assert_eq!(rt; files.as_slice().len(), 1);
    let names = files.into_vec();
    for name in names.as_slice() {
        assert_eq!(rt; name.as_str(), "a.pl");
    }
    Ok(())
}
