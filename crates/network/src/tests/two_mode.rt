// The two-mode network: its refusals, and what its memory then holds.
use super::super::faults::Fault;
use super::super::interface::{Editable, Readable};
use super::super::two_mode::TwoMode;
use std::test::Fail;

#[test]
fn two_sides_clear_their_own_bytes_alone(rt: HostRuntime) -> Result<(), Fail> {
    let memory = vec![in rt.alloc(); 7; 8]?;
    assert_eq!(rt; TwoMode::check(2, 3, &memory), Ok(()));
    let network = TwoMode::new(2, 3, memory);
    assert_eq!(rt; network.nodes(), 5);
    assert_eq!(rt; network.tie(1, 4), 0);
    assert!(rt; network.into_memory().as_slice() == [0, 0, 0, 0, 0, 0, 7, 7].as_slice());
    Ok(())
}

#[test]
fn up_to_128_nodes_in_all_are_accepted(rt: HostRuntime) -> Result<(), Fail> {
    let memory = vec![in rt.alloc(); 7; 4096]?;
    assert_eq!(rt; TwoMode::check(127, 1, &memory), Ok(()));
    assert_eq!(rt; TwoMode::check(64, 64, &memory), Ok(()));
    assert_eq!(rt; TwoMode::check(65, 64, &memory), Err(Fault::Size));
    Ok(())
}

#[test]
fn an_empty_side_and_too_many_nodes_are_refused(rt: HostRuntime) -> Result<(), Fail> {
    let memory = vec![in rt.alloc(); 7; 2]?;
    assert_eq!(rt; TwoMode::check(0, 5, &memory), Err(Fault::Size));
    assert_eq!(rt; TwoMode::check(5, 0, &memory), Err(Fault::Size));
    assert_eq!(rt; TwoMode::check(128, 1, &memory), Err(Fault::Size));
    assert_eq!(rt; TwoMode::check(usize::MAX, 1, &memory), Err(Fault::Size));
    assert_eq!(rt;
        TwoMode::check(usize::MAX, usize::MAX, &memory),
        Err(Fault::Size)
    );
    let empty = TwoMode::new(0, 5, memory);
    assert_eq!(rt; empty.nodes(), 0);
    let many = TwoMode::new(128, 1, empty.into_memory());
    assert_eq!(rt; many.nodes(), 0);
    assert!(rt; many.into_memory().as_slice() == [7, 7].as_slice());
    Ok(())
}

#[test]
fn two_sides_refuse_short_memory(rt: HostRuntime) -> Result<(), Fail> {
    let memory = vec![in rt.alloc(); 7; 5]?;
    assert_eq!(rt; TwoMode::check(2, 3, &memory), Err(Fault::Memory));
    let mut network = TwoMode::new(2, 3, memory);
    assert_eq!(rt; network.nodes(), 0);
    assert_eq!(rt; network.put(0, 2, 1), Err(Fault::Node));
    assert!(rt; network.into_memory().as_slice() == [7, 7, 7, 7, 7].as_slice());
    Ok(())
}

#[test]
fn ties_go_from_side_a_to_side_b_only(rt: HostRuntime) -> Result<(), Fail> {
    let mut network = TwoMode::new(2, 3, vec![in rt.alloc(); 9; 7]?);
    assert_eq!(rt; network.put(0, 3, 255), Ok(()));
    assert_eq!(rt; network.put(1, 4, 6), Ok(()));
    assert_eq!(rt; network.put(3, 0, 1), Err(Fault::Pair));
    assert_eq!(rt; network.put(0, 1, 1), Err(Fault::Pair));
    assert_eq!(rt; network.put(2, 3, 0), Err(Fault::Pair));
    assert_eq!(rt; network.put(5, 0, 1), Err(Fault::Node));
    assert_eq!(rt; network.put(0, 5, 1), Err(Fault::Node));
    assert_eq!(rt; network.put(0, usize::MAX, 0), Err(Fault::Node));
    assert_eq!(rt; network.tie(0, 3), 255);
    assert_eq!(rt; network.tie(1, 4), 6);
    assert_eq!(rt; network.tie(3, 0), 0);
    assert_eq!(rt; network.tie(0, 5), 0);
    assert!(rt; network.into_memory().as_slice() == [0, 255, 0, 0, 0, 6, 9].as_slice());
    Ok(())
}
