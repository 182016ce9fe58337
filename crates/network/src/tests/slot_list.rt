// The list: its refusals, and what its slots then hold.
use super::super::faults::Fault;
use super::super::interface::{Editable, Readable};
use super::super::slot::Slot;
use super::super::slot_list::SlotList;
use std::alloc::Global;
use std::test::Fail;

const fn taken(from: u8, to: u8, byte: u8) -> Slot {
    Slot::Taken { from, to, byte }
}

// So many free slots.
fn free(heap: Global, s: usize) -> Result<Vec<Slot>, Fail> {
    Ok(vec![in heap; Slot::Free; s]?)
}

#[test]
fn one_slot_is_taken_given_back_and_taken_by_another_pair(rt: HostRuntime) -> Result<(), Fail> {
    let mut network = SlotList::new(3, free(rt.alloc(), 1)?);
    assert_eq!(rt; network.put(0, 1, 1), Ok(()));
    assert_eq!(rt; network.put(0, 2, 1), Err(Fault::Full));
    assert_eq!(rt; network.tie(0, 2), 0);
    assert_eq!(rt; network.put(0, 1, 7), Ok(()));
    assert_eq!(rt; network.tie(0, 1), 7);
    assert_eq!(rt; network.put(0, 2, 0), Ok(()));
    assert_eq!(rt; network.put(0, 1, 0), Ok(()));
    assert_eq!(rt; network.put(0, 2, 1), Ok(()));
    assert_eq!(rt; (network.tie(0, 1), network.tie(0, 2)), (0, 1));
    assert!(rt; network.into_memory().as_slice() == [taken(0, 2, 1)].as_slice());
    Ok(())
}

#[test]
fn a_put_alters_one_slot(rt: HostRuntime) -> Result<(), Fail> {
    let mut network = SlotList::new(128, free(rt.alloc(), 3)?);
    assert_eq!(rt; network.put(0, 0, 255), Ok(()));
    assert_eq!(rt; network.put(127, 0, 1), Ok(()));
    assert_eq!(rt; network.put(0, 127, 2), Ok(()));
    assert_eq!(rt; network.put(127, 0, 0), Ok(()));
    assert_eq!(rt;
        (network.tie(0, 0), network.tie(127, 0), network.tie(0, 127)),
        (255, 0, 2)
    );
    assert_eq!(rt; network.put(0, 127, 3), Ok(()));
    assert_eq!(rt; network.put(5, 6, 0), Ok(()));
    let slots = [taken(0, 0, 255), Slot::Free, taken(0, 127, 3)];
    assert!(rt; network.into_memory().as_slice() == slots.as_slice());
    Ok(())
}

#[test]
fn a_node_that_is_not_there_has_no_slot(rt: HostRuntime) -> Result<(), Fail> {
    let mut network = SlotList::new(2, free(rt.alloc(), 2)?);
    assert_eq!(rt; network.put(0, 1, 1), Ok(()));
    assert_eq!(rt; network.put(2, 0, 1), Err(Fault::Node));
    assert_eq!(rt; network.put(0, 2, 0), Err(Fault::Node));
    // 256 is no node, though 0 is.
    assert_eq!(rt; network.put(256, 1, 9), Err(Fault::Node));
    assert_eq!(rt; network.put(0, usize::MAX, 1), Err(Fault::Node));
    assert_eq!(rt;
        (network.tie(256, 1), network.tie(0, 257), network.tie(2, 2)),
        (0, 0, 0)
    );
    assert!(rt; network.into_memory().as_slice() == [taken(0, 1, 1), Slot::Free].as_slice());
    Ok(())
}

#[test]
fn a_making_empties_every_slot(rt: HostRuntime) -> Result<(), Fail> {
    let mut memory = free(rt.alloc(), 2)?;
    memory.as_mut_slice().fill(taken(0, 1, 5));
    assert_eq!(rt; SlotList::check(2, &memory), Ok(()));
    let network = SlotList::new(2, memory);
    assert_eq!(rt; (network.nodes(), network.tie(0, 1)), (2, 0));
    assert!(rt; network.into_memory().as_slice() == [Slot::Free, Slot::Free].as_slice());
    Ok(())
}

#[test]
fn a_refused_making_writes_nothing(rt: HostRuntime) -> Result<(), Fail> {
    let mut memory = free(rt.alloc(), 2)?;
    memory.as_mut_slice().fill(taken(0, 1, 5));
    for n in [0, 129, usize::MAX] {
        assert_eq!(rt; SlotList::check(n, &memory), Err(Fault::Size));
    }
    let mut none = SlotList::new(129, memory);
    assert_eq!(rt; (none.nodes(), none.tie(0, 1)), (0, 0));
    assert_eq!(rt; none.put(0, 1, 0), Err(Fault::Node));
    let memory = none.into_memory();
    assert!(rt; memory.as_slice() == [taken(0, 1, 5), taken(0, 1, 5)].as_slice());
    Ok(())
}

#[test]
fn from_1_to_1024_slots_are_accepted(rt: HostRuntime) -> Result<(), Fail> {
    let heap = rt.alloc();
    for (s, answer) in [
        (0, Err(Fault::Memory)),
        (1, Ok(())),
        (1024, Ok(())),
        (1025, Err(Fault::Memory)),
    ] {
        let memory = free(heap, s)?;
        assert_eq!(rt; SlotList::check(128, &memory), answer, "{s} slots");
        assert_eq!(rt; SlotList::check(0, &memory), Err(Fault::Size), "{s} slots");
        let nodes = SlotList::new(128, memory).nodes();
        assert_eq!(rt; nodes, if answer.is_ok() { 128 } else { 0 }, "{s} slots");
    }
    Ok(())
}
