// Made programs: nothing is read, and a line is written for each of 51 programs.
use crate::world::edited;
use std::test::Fail;

/// Words, the status, and the first bytes that are written.
type Case<'a> = (&'a [&'a str], u8, &'a [u8]);

#[test]
fn lines_count_rows(rt: HostRuntime) -> Result<(), Fail> {
    let alloc = rt.alloc();
    let cases: [Case<'_>; 5] = [
        (
            &["--make", "1"],
            0,
            b"made 0 rows 1 none 0\nmade 1 rows 1 none 1\nmade 2 rows 1 none 0\nmade 3 rows 1 none 0\n",
        ),
        (
            &["--domain", "share", "--make", "3"],
            0,
            b"made 0 rows 4 none 0\nmade 1 rows 3 none 2\nmade 2 rows 4 none 0\n",
        ),
        (
            &[
                "--domain", "depth", "--depth", "2", "--rows", "7", "--make", "3",
            ],
            0,
            b"made 0 rows 3 none 0\nmade 1 rows 2 none 1\nmade 2 rows 3 none 0\n",
        ),
        (
            &["--rows", "3", "--make", "5"],
            1,
            b"made 0 stopped rows 3\nmade 1 stopped rows 3\n",
        ),
        (&["--make", "5", "a.pl"], 2, b""),
    ];
    for (words, wanted, begin) in cases {
        let (got, bytes) = edited(alloc, words, &[], b"add(")?;
        assert_eq!(rt; got, wanted);
        assert!(rt; bytes.as_slice().starts_with(begin));
    }
    Ok(())
}

#[test]
fn there_are_51_lines(rt: HostRuntime) -> Result<(), Fail> {
    let (_, bytes) = edited(rt.alloc(), &["--make", "2"], &[], b"")?;
    let mut lines = 0_u32;
    for byte in bytes.as_slice() {
        if *byte == b'\n' {
            lines = lines.saturating_add(1);
        }
    }
    assert_eq!(rt; lines, 51);
    Ok(())
}
