//! Lines and their answers.
use crate::{Reply, answer, reply};
use faults::Refusal;
use level::Level;
use lists::ListTable;
use std::test::Fail;

#[test]
fn lines_are_answered(rt: HostRuntime) -> Result<(), Fail> {
    let heap = rt.alloc();
    let mut level = Level::new(&ListTable::empty(2));
    assert!(rt;
        matches!(
            reply(heap, &mut level, Some(b"x 1 1"))?,
            Reply::Refused(Refusal::SameDoor)
        )
    );
    assert!(rt; matches!(reply(heap, &mut level, Some(b"l"))?, Reply::Linked { .. }));
    assert_eq!(rt; answer(heap, &mut level, Some(b"l"))?.as_str(), "0 1");
    assert_eq!(rt; answer(heap, &mut level, Some(b"s 0"))?.as_str(), "ok");
    assert_eq!(rt; answer(heap, &mut level, None)?.as_str(), "no 18");
    Ok(())
}
