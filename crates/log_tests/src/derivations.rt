//! Steps of derivations and the made project.
use big_project::project_text;
use conflict_checker::Step;
use std::alloc::{AllocError, Global};
use std::test::Fail;
use vocabulary::List;

fn mapped(alloc: Global) -> Result<Step, AllocError> {
    let mut rows = List::new(alloc);
    rows.push(4)?;
    Ok(Step::Mapped {
        mapping: 2,
        target: 1,
        rows,
    })
}

fn is_mapped(step: &Step) -> bool {
    match step {
        Step::Mapped {
            mapping,
            target,
            rows,
        } => *mapping == 2 && *target == 1 && rows.items() == [4].as_slice(),
        Step::Rule { .. } => false,
    }
}

fn is_copied(alloc: Global) -> Result<bool, AllocError> {
    Ok(is_mapped(&mapped(alloc)?.copy(alloc)?))
}

#[test]
fn steps_are_copied(rt: HostRuntime) -> Result<(), Fail> {
    assert!(rt; is_copied(rt.alloc())?);
    Ok(())
}

const FRONT: &str = "onprom 1\ntable doc \"doc.csv\"\n";

const BACK: &str = "set work \"made\" single (x, t) where of(x, c), made(c, t)\n";

#[test]
fn the_made_project_begins_and_ends_as_one(rt: HostRuntime) {
    let text = project_text().as_bytes();
    assert!(rt; text.starts_with(FRONT.as_bytes()));
    assert!(rt; text.ends_with(BACK.as_bytes()));
}
