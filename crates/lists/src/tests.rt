// Lists as long as was asked for, lent twice.
use super::Lists;
use lengths::Room;
use search::entry::Entry;
use std::alloc::AllocError;

#[test]
fn as_long_as_asked_for(rt: HostRuntime) -> Result<(), AllocError> {
    let room = Room {
        entries: 24,
        waiting: 16,
    };
    let mut lists = Lists::new(rt.alloc(), room)?;
    for _ in 0..2 {
        let work = lists.work();
        assert_eq!(rt; (work.entries.len(), work.waiting.len()), (24, 16));
    }
    assert_eq!(rt; lists.entries().len(), 24);
    assert!(rt; !lists.entries().iter().any(Entry::is_finished));
    Ok(())
}
