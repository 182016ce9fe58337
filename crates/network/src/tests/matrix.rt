// The matrix: its refusals, and what its memory then holds.
use super::super::faults::Fault;
use super::super::interface::{Editable, Readable};
use super::super::matrix::Matrix;
use std::test::Fail;

#[test]
fn a_matrix_clears_its_own_bytes_alone(rt: HostRuntime) -> Result<(), Fail> {
    let memory = vec![in rt.alloc(); 7; 12]?;
    assert_eq!(rt; Matrix::check(3, &memory), Ok(()));
    let network = Matrix::new(3, memory);
    assert_eq!(rt; network.nodes(), 3);
    assert_eq!(rt; network.tie(2, 2), 0);
    let memory = network.into_memory();
    assert!(rt; memory.as_slice() == [0, 0, 0, 0, 0, 0, 0, 0, 0, 7, 7, 7].as_slice());
    Ok(())
}

#[test]
fn no_nodes_and_too_many_are_refused(rt: HostRuntime) -> Result<(), Fail> {
    let memory = vec![in rt.alloc(); 7; 2]?;
    assert_eq!(rt; Matrix::check(0, &memory), Err(Fault::Size));
    assert_eq!(rt; Matrix::check(129, &memory), Err(Fault::Size));
    assert_eq!(rt; Matrix::check(usize::MAX, &memory), Err(Fault::Size));
    let none = Matrix::new(0, memory);
    assert_eq!(rt; none.nodes(), 0);
    let many = Matrix::new(129, none.into_memory());
    assert_eq!(rt; many.nodes(), 0);
    assert!(rt; many.into_memory().as_slice() == [7, 7].as_slice());
    Ok(())
}

#[test]
fn short_memory_is_refused(rt: HostRuntime) -> Result<(), Fail> {
    let memory = vec![in rt.alloc(); 7; 8]?;
    assert_eq!(rt; Matrix::check(3, &memory), Err(Fault::Memory));
    let mut network = Matrix::new(3, memory);
    assert_eq!(rt; network.nodes(), 0);
    assert_eq!(rt; network.put(0, 0, 1), Err(Fault::Node));
    assert!(rt; network.into_memory().as_slice() == [7, 7, 7, 7, 7, 7, 7, 7].as_slice());
    Ok(())
}

#[test]
fn a_put_alters_one_byte(rt: HostRuntime) -> Result<(), Fail> {
    let mut network = Matrix::new(2, vec![in rt.alloc(); 9; 5]?);
    assert_eq!(rt; network.put(0, 1, 255), Ok(()));
    assert_eq!(rt; network.put(1, 1, 4), Ok(()));
    assert_eq!(rt; network.put(1, 1, 0), Ok(()));
    assert_eq!(rt; network.tie(0, 1), 255);
    assert_eq!(rt; network.tie(1, 0), 0);
    assert!(rt; network.into_memory().as_slice() == [0, 255, 0, 0, 9].as_slice());
    Ok(())
}

#[test]
fn a_node_that_is_not_there_is_refused_and_reads_0(rt: HostRuntime) -> Result<(), Fail> {
    let mut network = Matrix::new(2, vec![in rt.alloc(); 9; 5]?);
    assert_eq!(rt; network.put(0, 1, 1), Ok(()));
    assert_eq!(rt; network.put(2, 0, 1), Err(Fault::Node));
    assert_eq!(rt; network.put(0, 2, 1), Err(Fault::Node));
    assert_eq!(rt; network.put(0, usize::MAX, 0), Err(Fault::Node));
    assert_eq!(rt; network.tie(0, 2), 0);
    assert_eq!(rt; network.tie(2, 0), 0);
    assert!(rt; network.into_memory().as_slice() == [0, 1, 0, 0, 9].as_slice());
    Ok(())
}
