// Small networks with known tables.
use super::classical::Classical;
use super::faults::Fault;
use super::leaving::leaving;
use super::totals::{total_over, total_toward};
use super::vetting::vet;
use measure::bundles::Bundles;
use measure::interface::Measure;
use measure::kinds::Kinds;
use measure::tally::Tally;
use measure::tally::counts::Counts;
use network::interface::{Editable, Readable};
use network::matrix::Matrix;
use network::no_loops::NoLoops;
use network::turned::Turned;
use network::two_mode::TwoMode;
use std::alloc::Global;
use std::process::Abort;
use std::test::Fail;

// A team of three, and one of two.
const TEAMS: [(usize, usize); 3] = [(0, 1), (0, 2), (3, 4)];

// A cycle of three nodes, and a mutual tie.
const CYCLES: [(usize, usize); 5] = [(0, 1), (1, 2), (2, 0), (3, 4), (4, 3)];

// A matrix of n nodes with byte 1 for each tie.
fn matrix(
    rt: &impl Abort,
    heap: Global,
    n: usize,
    ties: &[(usize, usize)],
) -> Result<Matrix, Fail> {
    let mut network = Matrix::new(n, vec![in heap; 0; 81]?);
    for &(i, j) in ties {
        assert!(rt; network.put(i, j, 1).is_ok());
    }
    Ok(network)
}

#[test]
fn an_isolate_is_not_a_sink(rt: HostRuntime) -> Result<(), Fail> {
    let network = matrix(&rt, rt.alloc(), 3, &[(0, 1)])?;
    assert_eq!(rt; vet(&network, &Kinds, &[0, 1, 1]), Ok(Some((1, 2, 0))));
    assert_eq!(rt; vet(&network, &Kinds, &[0, 1, 2]), Ok(None));
    assert_eq!(rt; Kinds.vet(&network, &[0, 0, 0]), Ok(Some((0, 1, 0))));
    Ok(())
}

#[test]
fn a_tie_more_joins_what_was_apart(rt: HostRuntime) -> Result<(), Fail> {
    let mut network = matrix(&rt, rt.alloc(), 3, &[(0, 1)])?;
    assert_eq!(rt; vet(&network, &Kinds, &[5, 9, 5]), Ok(Some((0, 2, 1))));
    assert!(rt; network.put(2, 1, 1).is_ok());
    assert_eq!(rt; vet(&network, &Kinds, &[5, 9, 5]), Ok(None));
    assert_eq!(rt; vet(&network, &Kinds, &[0, 0, 0]), Ok(Some((0, 1, 0))));
    Ok(())
}

#[test]
fn a_chain_keeps_its_nodes_apart(rt: HostRuntime) -> Result<(), Fail> {
    let network = matrix(&rt, rt.alloc(), 3, &[(0, 1), (1, 2)])?;
    assert_eq!(rt; vet(&network, &Kinds, &[0, 1, 2]), Ok(None));
    assert_eq!(rt; vet(&network, &Kinds, &[0, 1, 0]), Ok(Some((0, 2, 1))));
    let nine = [
        (0, 1),
        (1, 2),
        (2, 3),
        (3, 4),
        (4, 5),
        (5, 6),
        (6, 7),
        (7, 8),
    ];
    let network = matrix(&rt, rt.alloc(), 9, &nine)?;
    assert_eq!(rt;
        vet(&network, &Kinds, &[0, 1, 2, 3, 4, 5, 6, 7, 8]),
        Ok(None)
    );
    assert!(rt; vet(&network, &Kinds, &[0, 1, 2, 3, 4, 3, 6, 7, 8]) != Ok(None));
    Ok(())
}

#[test]
fn roles_need_not_have_equal_numbers_of_ties(rt: HostRuntime) -> Result<(), Fail> {
    let network = matrix(&rt, rt.alloc(), 5, &TEAMS)?;
    assert_eq!(rt; vet(&network, &Kinds, &[0, 1, 1, 0, 1]), Ok(None));
    let cycles = matrix(&rt, rt.alloc(), 5, &CYCLES)?;
    assert_eq!(rt; vet(&cycles, &Kinds, &[6, 6, 6, 6, 6]), Ok(None));
    Ok(())
}

#[test]
fn tally_tells_numbers_of_ties_apart(rt: HostRuntime) -> Result<(), Fail> {
    let network = matrix(&rt, rt.alloc(), 5, &TEAMS)?;
    assert_eq!(rt; Bundles.vet(&network, &[0, 1, 1, 0, 1]), Ok(None));
    assert_eq!(rt; Tally.vet(&network, &[0, 1, 1, 0, 1]), Ok(Some((0, 3, 1))));
    assert_eq!(rt; Tally.vet(&network, &[0, 1, 1, 3, 4]), Ok(None));
    Ok(())
}

#[test]
fn bundles_tell_a_mutual_tie_from_two_ties(rt: HostRuntime) -> Result<(), Fail> {
    let cycles = matrix(&rt, rt.alloc(), 5, &CYCLES)?;
    assert_eq!(rt; Tally.vet(&cycles, &[6, 6, 6, 6, 6]), Ok(None));
    assert_eq!(rt; Bundles.vet(&cycles, &[6, 6, 6, 6, 6]), Ok(Some((0, 3, 0))));
    assert_eq!(rt; Bundles.vet(&cycles, &[6, 6, 6, 7, 7]), Ok(None));
    Ok(())
}

#[test]
fn bundles_look_at_three_kinds_and_tally_at_none(rt: HostRuntime) -> Result<(), Fail> {
    let mut network = matrix(&rt, rt.alloc(), 4, &[(0, 2), (1, 3)])?;
    assert!(rt; network.put(0, 2, 9).is_ok());
    assert_eq!(rt; Bundles.vet(&network, &[0, 0, 1, 1]), Ok(None));
    assert!(rt; Kinds.vet(&network, &[0, 0, 1, 1]) != Ok(None));
    assert!(rt; network.put(0, 2, 5).is_ok());
    assert!(rt; Bundles.vet(&network, &[0, 0, 1, 1]) != Ok(None));
    assert_eq!(rt; Tally.vet(&network, &[0, 0, 1, 1]), Ok(None));
    Ok(())
}

// Students 0 to 2 and exams 3 and 4; students 0 and 1 sit exam 3.
fn exams(rt: &impl Abort, heap: Global) -> Result<TwoMode, Fail> {
    let mut network = TwoMode::new(3, 2, vec![in heap; 0; 6]?);
    assert!(rt; network.put(0, 3, 1).is_ok());
    assert!(rt; network.put(1, 3, 1).is_ok());
    Ok(network)
}

#[test]
fn two_modes_have_roles_across_both_sides(rt: HostRuntime) -> Result<(), Fail> {
    let network = exams(&rt, rt.alloc())?;
    assert_eq!(rt; Kinds.vet(&network, &[0, 0, 2, 1, 2]), Ok(None));
    assert_eq!(rt; Bundles.vet(&network, &[0, 0, 2, 1, 2]), Ok(None));
    assert_eq!(rt; Tally.vet(&network, &[0, 0, 2, 1, 2]), Ok(None));
    assert_eq!(rt; Kinds.vet(&network, &[0, 0, 0, 1, 1]), Ok(Some((3, 4, 0))));
    Ok(())
}

#[test]
fn a_layer_is_vetted_as_a_network(rt: HostRuntime) -> Result<(), Fail> {
    let network = NoLoops(Turned(exams(&rt, rt.alloc())?));
    assert_eq!(rt; Kinds.vet(&network, &[0, 0, 2, 1, 2]), Ok(None));
    assert_eq!(rt; Kinds.vet(&network, &[0, 0, 2, 1]), Err(Fault::Length));
    let some = total_toward(&network, &Kinds, 3, &[0, 0, 2, 1, 2], 0);
    assert!(rt; Kinds.same(some, Kinds.weigh(1, 0)));
    Ok(())
}

#[test]
fn without_ties_every_table_is_regular(rt: HostRuntime) -> Result<(), Fail> {
    let network = matrix(&rt, rt.alloc(), 4, &[])?;
    assert_eq!(rt; vet(&network, &Kinds, &[0, 0, 0, 0]), Ok(None));
    assert_eq!(rt; vet(&network, &Kinds, &[0, 1, 0, 1]), Ok(None));
    Ok(())
}

#[test]
fn a_self_tie_counts(rt: HostRuntime) -> Result<(), Fail> {
    let alone = matrix(&rt, rt.alloc(), 1, &[(0, 0)])?;
    assert_eq!(rt; vet(&alone, &Kinds, &[255]), Ok(None));
    let beside = matrix(&rt, rt.alloc(), 2, &[(0, 0)])?;
    assert_eq!(rt; vet(&beside, &Kinds, &[3, 3]), Ok(Some((0, 1, 0))));
    assert_eq!(rt; vet(&beside, &Kinds, &[3, 4]), Ok(None));
    Ok(())
}

#[test]
fn kinds_are_told_apart(rt: HostRuntime) -> Result<(), Fail> {
    let mut network = matrix(&rt, rt.alloc(), 3, &[(0, 2)])?;
    assert!(rt; network.put(1, 2, 2).is_ok());
    assert_eq!(rt; vet(&network, &Kinds, &[0, 0, 1]), Ok(Some((0, 1, 2))));
    assert!(rt; network.put(1, 2, 1).is_ok());
    assert_eq!(rt; vet(&network, &Kinds, &[0, 0, 1]), Ok(None));
    Ok(())
}

#[test]
fn a_table_of_another_length_is_refused(rt: HostRuntime) -> Result<(), Fail> {
    let network = matrix(&rt, rt.alloc(), 3, &[(0, 1)])?;
    assert_eq!(rt; vet(&network, &Kinds, &[0, 1]), Err(Fault::Length));
    assert_eq!(rt; vet(&network, &Kinds, &[0, 1, 2, 3]), Err(Fault::Length));
    assert_eq!(rt; Kinds.vet(&network, &[]), Err(Fault::Length));
    assert_eq!(rt; Bundles.vet(&network, &[0, 1]), Err(Fault::Length));
    assert_eq!(rt; Tally.vet(&network, &[0, 1, 2, 3]), Err(Fault::Length));
    assert_eq!(rt; Fault::Length.number(), 10);
    assert_eq!(rt; Fault::Length.origin(), "vet");
    let memory = network.into_memory();
    assert!(rt; memory.len() == 81);
    assert_eq!(rt; memory[1], 1);
    Ok(())
}

#[test]
fn the_network_without_nodes_has_the_empty_table(rt: HostRuntime) -> Result<(), Fail> {
    let network = Matrix::new(0, vec![in rt.alloc(); 0; 0]?);
    assert_eq!(rt; vet(&network, &Kinds, &[]), Ok(None));
    assert_eq!(rt; vet(&network, &Kinds, &[0]), Err(Fault::Length));
    Ok(())
}

// The total of node 0 over a list of nodes.
fn over(rt: &impl Abort, network: &Matrix, nodes: &[u8]) -> Counts {
    let n = network.nodes();
    assert!(rt; n > 0 && nodes.iter().all(|&y| usize::from(y) < n));
    total_over(network, &Tally, 0, nodes)
}

#[test]
fn a_total_takes_each_node_of_the_set(rt: HostRuntime) -> Result<(), Fail> {
    let network = matrix(&rt, rt.alloc(), 3, &[(0, 1), (2, 0)])?;
    assert!(rt; network.nodes() > 0);
    let all = total_toward(&network, &Kinds, 0, &[7, 7, 7], 7);
    assert!(rt; Kinds.same(all, Kinds.weigh(1, 1)));
    let some = total_toward(&network, &Kinds, 0, &[7, 7], 7);
    assert!(rt; Kinds.same(some, Kinds.weigh(1, 0)));
    assert!(rt;
        Kinds.same(
            total_toward(&network, &Kinds, 0, &[7, 7, 7], 8),
            Kinds.none(),
        )
    );
    Ok(())
}

#[test]
fn a_list_is_joined_node_by_node(rt: HostRuntime) -> Result<(), Fail> {
    let network = matrix(&rt, rt.alloc(), 3, &[(0, 1), (2, 0)])?;
    let out = Tally.weigh(1, 0);
    let into = Tally.weigh(0, 1);
    assert_eq!(rt; over(&rt, &network, &[]), Tally.none());
    assert_eq!(rt; over(&rt, &network, &[1]), out);
    assert_eq!(rt; over(&rt, &network, &[0, 1, 2]), Tally.join(out, into));
    // A node that is listed twice counts twice.
    assert_eq!(rt; over(&rt, &network, &[1, 1, 0]), Tally.join(out, out));
    Ok(())
}

#[test]
fn those_leave_that_have_not_the_total_of_part(rt: HostRuntime) -> Result<(), Fail> {
    let network = matrix(&rt, rt.alloc(), 5, &TEAMS)?;
    let n = network.nodes();
    let nodes = [1, 2, 4];
    let table = [0, 0, 0, 0, 1];
    assert!(rt; n == 5 && nodes.iter().all(|&y| usize::from(y) < n));
    let leave = leaving(&network, &Kinds, &table, 0, &nodes);
    assert!(rt; (&leave[..5]) == [false, true, true, false, false].as_slice());
    let leave = leaving(&network, &Tally, &table, 0, &nodes);
    assert!(rt; (&leave[..5]) == [false, true, true, true, false].as_slice());
    Ok(())
}
