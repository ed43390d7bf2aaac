//! The rows of a small table by text.
use crate::small::table;
use row_index::Index;
use std::test::Fail;
use vocabulary::ColId;

fn are_found(index: &Index) -> bool {
    index.find("x") == [0, 3].as_slice()
        && index.find("y") == [2].as_slice()
        && index.find("") == [].as_slice()
}

#[test]
fn rows_are_found_by_text(rt: HostRuntime) -> Result<(), Fail> {
    let titles = table(rt.alloc(), b"id,title\n1,x\n2,\n3,y\n4,x\n")?;
    let index = Index::build(rt.alloc(), &titles, ColId(1))?;
    assert!(rt; are_found(&index));
    Ok(())
}
