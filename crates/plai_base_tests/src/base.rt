// Each call once, and what fails once in mid-stream.
ghost use Rattle.std.specs.Prelude.{◌≡◌, ◌<◌};

use plai_base::*;
use std::alloc::{AllocError, Global};
use std::marker::Brand;
use std::sync::ledger::{Blank, Ledger};
use std::test::Fail;

fn files_of(alloc: Global) -> Result<Vec<(String, Vec<u8>)>, AllocError> {
    let mut files = Vec::new(alloc);
    for text in [b"p(a).".as_slice(), b"p(b)."] {
        files.push((String::from_str(alloc, "a.pl")?, text.to_vec(alloc)?))?;
    }
    Ok(files)
}

fn tick_twice<L: Ledger>(blank: Blank)
    requires name { blank.name ≡ L.name }
    requires parts { blank.parts ≡ L.parts }
    requires some { 0 < blank.parts }
{
    let mut steps = Steps::<L>::new(blank);
    steps.tick();
    steps.tick();
}

#[test]
fn sets_of_slots(rt: HostRuntime) -> Result<(), Fail> {
    let set = Mask::empty().insert(3).insert(63);
    let other = Mask::of(5).union(Mask::of(3));
    assert_eq!(rt; set, Mask::from_bits(0x8000_0000_0000_0008));
    assert_eq!(rt; set.union(other).bits(), 0x8000_0000_0000_0028);
    assert_eq!(rt; set.project(other), Mask::of(3));
    assert_eq!(rt; set.after(3), Mask::of(0).insert(60));
    assert_eq!(rt; (set.meets(other), set.meets(Mask::of(5))), (true, false));
    assert_eq!(rt;
        (set.contains(63), set.has(62), set.has(67)),
        (true, false, false)
    );
    assert_eq!(rt; (set.lowest(), Mask::empty().lowest()), (Some(3), None));
    assert_eq!(rt; (set.is_empty(), Mask::empty().is_empty()), (false, true));
    assert_eq!(rt; set.slots(rt.alloc())?.as_slice(), [3, 63].as_slice());
    Ok(())
}

#[test]
fn files_in_memory(rt: HostRuntime) -> Result<(), Fail> {
    let alloc = rt.alloc();
    let mut library = MemoryLibrary::new(files_of(alloc)?, vec![in alloc; 2]?);
    let mut honest = HonestLibrary::new(files_of(alloc)?);
    let mut out = vec![in alloc; b'%']?;
    assert_eq!(rt; library.read(alloc, "a.pl", &mut out), Ok(()));
    assert_eq!(rt;
        library.read(alloc, "a.pl", &mut out),
        Err(ReadFail::Failed)
    );
    assert_eq!(rt;
        library.read(alloc, "b.pl", &mut out),
        Err(ReadFail::Failed)
    );
    assert_eq!(rt; honest.read(alloc, "b.pl", &mut out), Ok(()));
    assert_eq!(rt; out.as_slice(), b"%p(a).".as_slice());
    assert_eq!(rt; honest.read(alloc, "a.pl", &mut out), Ok(()));
    assert_eq!(rt; out.as_slice(), b"%p(a).p(a).".as_slice());
    Ok(())
}

#[test]
fn bytes_in_memory(rt: HostRuntime) -> Result<(), Fail> {
    let alloc = rt.alloc();
    let mut out = vec![in alloc; b'%']?;
    let cases = [
        (5, 9, Ok(())),
        (4, 9, Err(ReadFail::TooLong)),
        (5, 2, Err(ReadFail::Failed)),
    ];
    for (limit, failing, want) in cases {
        let mut source = MemorySource::new(b"p(a).".to_vec(alloc)?, 2, vec![in alloc; failing]?);
        assert_eq!(rt; read_whole(&mut source, limit, &mut out), want);
        assert_eq!(rt;
            out.as_slice(),
            b"%p(a).".as_slice(),
            "with the limit {limit}"
        );
    }
    for (room, failing, want, taken) in [
        (5, 9, Ok(()), b"p(a).".as_slice()),
        (4, 9, Err(Failed), b"p(a)"),
        (5, 2, Err(Failed), b"p("),
    ] {
        let mut sink = MemorySink::new(alloc, room, 2, vec![in alloc; failing]?)?;
        assert_eq!(rt; write_whole(&mut sink, b"p(a)."), want);
        assert_eq!(rt; sink.bytes(), taken);
    }
    Ok(())
}

#[test]
fn streams_of_the_system(rt: HostRuntime) -> Result<(), Fail> {
    let alloc = rt.alloc();
    let mut out = Vec::new(alloc);
    let mut source = InputSource::new(b"p(a).".as_slice());
    assert_eq!(rt; read_whole(&mut source, 5, &mut out), Ok(()));
    assert_eq!(rt; out.as_slice(), b"p(a).".as_slice());
    assert_eq!(rt;
        write_whole(&mut OutputSink::new(Vec::new(alloc)), b"p(a)."),
        Ok(())
    );
    let mut files = FileLibrary::new(&rt);
    assert_eq!(rt;
        files.read(alloc, "no such file", &mut out),
        Err(ReadFail::Failed)
    );
    Ok(())
}

#[test]
fn counted_steps() {
    tick_twice::<Brand>(Blank::new(1));
}
