// The coarsest regular table of networks whose roles are known.
use super::super::faults::Fault;
use super::super::open::Open;
use super::super::step::Step;
use super::{CYCLES, TEAMS, chain, matrix, settles, shows, tied};
use measure::bundles::Bundles;
use measure::kinds::Kinds;
use measure::tally::Tally;
use network::faults;
use network::no_loops::NoLoops;
use network::turned::Turned;
use network::two_mode::TwoMode;
use std::array;
use std::test::Fail;

#[test]
fn without_ties_the_colours_are_the_roles(rt: HostRuntime) -> Result<(), Fail> {
    let mut open = Open::new(matrix(rt.alloc(), 4)?, Kinds);
    assert_eq!(rt; open.colour(1, 1), Ok(()));
    assert_eq!(rt; open.colour(3, 1), Ok(()));
    settles(&rt, open, &Kinds, 0, &[0, 1, 0, 1]);
    Ok(())
}

#[test]
fn a_node_tied_to_itself_is_a_role(rt: HostRuntime) -> Result<(), Fail> {
    let open = tied(&rt, matrix(rt.alloc(), 1)?, Kinds, &[(0, 0)]);
    settles(&rt, open, &Kinds, 0, &[0]);
    Ok(())
}

#[test]
fn each_node_of_a_chain_is_a_role(rt: HostRuntime) -> Result<(), Fail> {
    let heads: [usize; 128] = array::from_fn(|x| x);
    for n in [3, 9, 128] {
        let open = settles(&rt, chain(&rt, rt.alloc(), n)?, &Kinds, n - 1, &heads[..n]);
        assert_eq!(rt; open.roles(), n);
        assert_eq!(rt; open.role(n), Err(Fault::Role));
        assert_eq!(rt; open.role_of(n), Err(Fault::Node));
    }
    Ok(())
}

#[test]
fn the_nodes_of_a_role_are_told_in_order(rt: HostRuntime) -> Result<(), Fail> {
    let open = tied(&rt, matrix(rt.alloc(), 5)?, Kinds, &TEAMS);
    let settled = open.settle();
    let nodes = settled.members(1).expect(&rt, "a role");
    assert!(rt; nodes.as_slice() == [1, 2, 4].as_slice());
    let open = settled.reopen();
    let nodes = open.members(0).expect(&rt, "a role");
    assert!(rt; nodes.as_slice() == [0, 3].as_slice());
    assert!(rt; open.members(2).is_err());
    Ok(())
}

#[test]
fn tally_tells_teams_apart_by_their_sizes(rt: HostRuntime) -> Result<(), Fail> {
    let open = tied(&rt, matrix(rt.alloc(), 5)?, Kinds, &TEAMS);
    settles(&rt, open, &Kinds, 1, &[0, 1, 1, 0, 1]);
    let open = tied(&rt, matrix(rt.alloc(), 5)?, Bundles, &TEAMS);
    settles(&rt, open, &Bundles, 1, &[0, 1, 1, 0, 1]);
    let open = tied(&rt, matrix(rt.alloc(), 5)?, Tally, &TEAMS);
    settles(&rt, open, &Tally, 3, &[0, 1, 1, 3, 4]);
    Ok(())
}

#[test]
fn bundles_tell_a_mutual_tie_from_a_cycle(rt: HostRuntime) -> Result<(), Fail> {
    let open = tied(&rt, matrix(rt.alloc(), 5)?, Kinds, &CYCLES);
    settles(&rt, open, &Kinds, 0, &[0, 0, 0, 0, 0]);
    let open = tied(&rt, matrix(rt.alloc(), 5)?, Tally, &CYCLES);
    settles(&rt, open, &Tally, 0, &[0, 0, 0, 0, 0]);
    let open = tied(&rt, matrix(rt.alloc(), 5)?, Bundles, &CYCLES);
    let open = settles(&rt, open, &Bundles, 1, &[0, 0, 0, 3, 3]);
    // Settled once more, nothing changes.
    settles(&rt, open, &Bundles, 1, &[0, 0, 0, 3, 3]);
    Ok(())
}

#[test]
fn sides_and_layers_settle(rt: HostRuntime) -> Result<(), Fail> {
    let exams = TwoMode::new(3, 2, vec![in rt.alloc(); 0; 6]?);
    let open = tied(&rt, exams, Kinds, &[(0, 3), (1, 3)]);
    settles(&rt, open, &Kinds, 2, &[0, 0, 2, 3, 2]);
    let layers = Turned(NoLoops(matrix(rt.alloc(), 5)?));
    let open = tied(&rt, layers, Tally, &TEAMS);
    settles(&rt, open, &Tally, 3, &[0, 1, 1, 3, 4]);
    Ok(())
}

#[test]
fn the_network_without_nodes_has_no_roles(rt: HostRuntime) -> Result<(), Fail> {
    let mut open = Open::new(matrix(rt.alloc(), 0)?, Kinds);
    assert_eq!(rt; open.put(0, 0, 1), Err(faults::Fault::Node));
    assert_eq!(rt; open.colour(0, 1), Err(Fault::Node));
    assert_eq!(rt; open.role(0), Err(Fault::Role));
    shows(&rt, &open, 0, &[]);
    assert_eq!(rt; open.step(), Step::Stable);
    settles(&rt, open, &Kinds, 0, &[]);
    Ok(())
}
