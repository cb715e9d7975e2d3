use plai_base::Mask;
use plai_domain::{Tally, Work, WorkEntry, WorkLog};
use plai_terms::{Abs, Listed, Name, PredKey, RowName};
use std::alloc::{AllocError, Global};
use std::test::Fail;

fn row(alloc: Global, text: &str) -> Result<RowName, AllocError> {
    let masks = vec![in alloc; Mask::from_bits(1)]?;
    Ok(RowName {
        pred: PredKey {
            module: Name::new(Vec::from_slice(alloc, b"m")?),
            name: Name::new(Vec::from_slice(alloc, text.as_bytes())?),
            arity: 1,
        },
        call: Abs::Pos(1, Listed::new(masks)),
    })
}

fn entry(alloc: Global, kind: u32) -> Result<WorkEntry, AllocError> {
    let name = row(alloc, "p")?;
    Ok(match kind {
        0 => WorkEntry::Mark(3),
        1 => WorkEntry::Made(name),
        2 => WorkEntry::Woke(name),
        3 => WorkEntry::Evaluated(name, 2),
        _ => WorkEntry::Grew(name, Abs::Nothing),
    })
}

fn entries(alloc: Global) -> Result<Vec<WorkEntry>, AllocError> {
    let mut entries = Vec::new(alloc);
    for kind in 0..5 {
        entries.push(entry(alloc, kind)?)?;
    }
    Ok(entries)
}

fn note_all<W: Work>(alloc: Global, work: &mut W) -> Result<(), AllocError> {
    for entry in &entries(alloc)? {
        work.note(alloc, entry)?;
    }
    Ok(())
}

#[test]
fn a_log_keeps_copies_of_what_is_noted(rt: HostRuntime) -> Result<(), Fail> {
    let alloc = rt.alloc();
    let mut log = WorkLog::new(alloc);
    assert_eq!(rt; log.entries().len(), 0);
    note_all(alloc, &mut log)?;
    let noted = format!(in alloc; "{:?}", log.entries())?;
    assert_eq!(rt; noted, format!(in alloc; "{:?}", entries(alloc)?)?);
    note_all(alloc, &mut Tally::new())?;
    Ok(())
}
