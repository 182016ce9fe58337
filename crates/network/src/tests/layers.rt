// Layers over networks and over one another.
use super::super::faults::Fault;
use super::super::interface::{Editable, Readable};
use super::super::matrix::Matrix;
use super::super::no_loops::NoLoops;
use super::super::slot::Slot;
use super::super::slot_list::SlotList;
use super::super::turned::Turned;
use super::super::two_mode::TwoMode;
use std::process::Abort;
use std::test::Fail;

#[test]
fn turned_over_no_loops_over_two_sides(rt: HostRuntime) -> Result<(), Fail> {
    let mut network = Turned(NoLoops(TwoMode::new(1, 2, vec![in rt.alloc(); 9; 3]?)));
    assert_eq!(rt; network.nodes(), 3);
    assert_eq!(rt; network.put(2, 0, 5), Ok(()));
    assert_eq!(rt; network.tie(2, 0), 5);
    assert_eq!(rt; network.tie(0, 2), 0);
    assert_eq!(rt; network.put(0, 2, 1), Err(Fault::Pair));
    assert_eq!(rt; network.put(1, 1, 1), Err(Fault::Pair));
    assert_eq!(rt; network.put(3, 0, 1), Err(Fault::Node));
    assert_eq!(rt; network.put(3, 3, 1), Err(Fault::Node));
    let Turned(NoLoops(below)) = network;
    assert!(rt; below.into_memory().as_slice() == [0, 5, 9].as_slice());
    Ok(())
}

#[test]
fn no_loops_over_turned_over_two_sides(rt: HostRuntime) -> Result<(), Fail> {
    let mut network = NoLoops(Turned(TwoMode::new(1, 2, vec![in rt.alloc(); 9; 3]?)));
    assert_eq!(rt; network.nodes(), 3);
    assert_eq!(rt; network.put(1, 0, 4), Ok(()));
    assert_eq!(rt; network.tie(1, 0), 4);
    assert_eq!(rt; network.tie(0, 1), 0);
    assert_eq!(rt; network.put(0, 1, 1), Err(Fault::Pair));
    assert_eq!(rt; network.put(0, 0, 1), Err(Fault::Pair));
    assert_eq!(rt; network.put(0, 3, 1), Err(Fault::Node));
    assert_eq!(rt; network.put(3, 3, 1), Err(Fault::Node));
    let NoLoops(Turned(below)) = network;
    assert!(rt; below.into_memory().as_slice() == [4, 0, 9].as_slice());
    Ok(())
}

#[test]
fn loops_that_are_there_are_still_read(rt: HostRuntime) -> Result<(), Fail> {
    let mut below = Matrix::new(2, vec![in rt.alloc(); 9; 4]?);
    assert_eq!(rt; below.put(1, 1, 8), Ok(()));
    let mut network = NoLoops(below);
    assert_eq!(rt; network.tie(1, 1), 8);
    assert_eq!(rt; network.put(1, 1, 0), Err(Fault::Pair));
    assert_eq!(rt; network.put(0, 1, 3), Ok(()));
    assert_eq!(rt; network.tie(1, 1), 8);
    let NoLoops(below) = network;
    assert!(rt; below.into_memory().as_slice() == [0, 3, 0, 8].as_slice());
    Ok(())
}

// What a refused put tells of its fault.
fn told(answer: Result<(), Fault>) -> Result<(), (&'static str, u8)> {
    answer.map_err(|fault| (fault.origin(), fault.number()))
}

fn refuses_in_order<N: Editable>(rt: &impl Abort, network: &mut N) {
    assert_eq!(rt; told(network.put(0, 3, 1)), Err(("network", 3)));
    assert_eq!(rt; told(network.put(3, 3, 0)), Err(("network", 3)));
    assert_eq!(rt; told(network.put(2, 2, 0)), Err(("network", 4)));
    // There is no room either, but the pair is asked first.
    assert_eq!(rt; told(network.put(2, 2, 1)), Err(("network", 4)));
    assert_eq!(rt; told(network.put(0, 2, 1)), Err(("network", 5)));
    assert_eq!(rt; told(network.put(0, 2, 0)), Ok(()));
    assert_eq!(rt; network.tie(0, 2), 0);
}

// Three nodes, and one slot, which the pair (1, 0) has.
fn full(rt: &(impl Abort + AllocGlobal)) -> Result<SlotList, Fail> {
    let mut network = SlotList::new(3, vec![in rt.alloc(); Slot::Free; 1]?);
    assert_eq!(rt; network.put(1, 0, 1), Ok(()));
    Ok(network)
}

#[test]
fn every_refusal_comes_through_two_layers(rt: HostRuntime) -> Result<(), Fail> {
    refuses_in_order(&rt, &mut Turned(NoLoops(full(&rt)?)));
    refuses_in_order(&rt, &mut NoLoops(Turned(full(&rt)?)));
    Ok(())
}

#[test]
fn a_network_shows_what_it_keeps(rt: HostRuntime) -> Result<(), Fail> {
    let heap = rt.alloc();
    let matrix = Turned(Matrix::new(2, vec![in heap; 9; 5]?));
    let shown = format!(in heap; "{matrix:?}")?;
    assert_eq!(rt;
        shown.as_str(),
        "Turned(Grid { shape: Square { n: 2 }, bytes: [0, 0, 0, 0, 9] })"
    );
    let list = NoLoops(full(&rt)?);
    let shown = format!(in heap; "{list:?}")?;
    let slot = "Taken { from: 1, to: 0, byte: 1 }";
    let expected = format!(in heap; "NoLoops(SlotList {{ n: 3, memory: [{slot}] }})")?;
    assert_eq!(rt; shown.as_str(), expected.as_str());
    Ok(())
}
