// The actions of some builtins, by their names and numbers of arguments.
use plai_base::Mask;
use plai_builtins::table;
use plai_domain::Action;
use plai_terms::Name;
use std::test::Fail;

#[test]
fn actions_are_those_of_the_builtins(rt: HostRuntime) -> Result<(), Fail> {
    let none: &[Action] = &[];
    let last = Action::Havoc(Mask::empty().insert(0));
    for (text, arity, wanted) in [
        ("nl", 0, Some(none)),
        (
            "is",
            2,
            Some([Action::Ground(2), Action::BindInt(1)].as_slice()),
        ),
        (
            "functor",
            3,
            Some([Action::Ground(2), Action::BindInt(3), last].as_slice()),
        ),
        ("is", 3, None),
        ("p", 0, None),
    ] {
        let name = Name::new(Vec::from_slice(rt.alloc(), text.as_bytes())?);
        match (table(&name, arity), wanted) {
            (None, None) => {}
            (Some(found), Some(actions)) => assert_eq!(rt; found.as_slice(), actions),
            _ => assert!(rt; false, "{text} of {arity}"),
        }
    }
    Ok(())
}
