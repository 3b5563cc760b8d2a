use super::*;
use road_model::{ArcNo, ArcRows, Change, ChangeFault, GraphFile, Version};
use std::test::Fail;

#[test]
fn a_change_of_an_arc_that_is_not_there_is_refused(rt: HostRuntime) -> Result<(), Fail> {
    let alloc = rt.alloc();
    let first = Prepared::from_file(&rt, alloc, GraphFile::new(2, ArcRows::new(alloc)))?;
    let change = Change {
        arc: ArcNo(1),
        length: 5,
    };
    let refused = first.after(&rt, alloc, &[change]).err();
    assert_eq!(rt; refused, Some(ChangeFault::ArcRange));
    Ok(())
}
