// An accepted edit brings the starting classes back, a refused one leaves all as it was.
use super::super::faults::Fault;
use super::super::open::Open;
use super::super::step::Step;
use super::{TEAMS, chain, matrix, settles, shows, tied};
use measure::interface::Measure;
use measure::kinds::Kinds;
use network::interface::Editable;
use network::no_loops::NoLoops;
use network::two_mode::TwoMode;
use std::process::Abort;
use std::test::Fail;

#[test]
fn an_edit_brings_the_starting_classes_back(rt: HostRuntime) -> Result<(), Fail> {
    let open = tied(&rt, matrix(rt.alloc(), 3)?, Kinds, &[(0, 1)]);
    let mut open = settles(&rt, open, &Kinds, 2, &[0, 1, 2]);
    assert_eq!(rt; open.put(2, 1, 1), Ok(()));
    shows(&rt, &open, 0, &[0, 0, 0]);
    let mut open = settles(&rt, open, &Kinds, 1, &[0, 1, 0]);
    assert_eq!(rt; open.colour(2, 255), Ok(()));
    shows(&rt, &open, 0, &[0, 0, 2]);
    settles(&rt, open, &Kinds, 1, &[0, 1, 2]);
    Ok(())
}

#[test]
fn an_edit_that_alters_nothing_brings_them_back_too(rt: HostRuntime) -> Result<(), Fail> {
    let mut open = settles(&rt, chain(&rt, rt.alloc(), 3)?, &Kinds, 2, &[0, 1, 2]);
    assert_eq!(rt; open.put(0, 1, 1), Ok(()));
    shows(&rt, &open, 0, &[0, 0, 0]);
    let mut open = settles(&rt, open, &Kinds, 2, &[0, 1, 2]);
    assert_eq!(rt; open.colour(1, 0), Ok(()));
    shows(&rt, &open, 0, &[0, 0, 0]);
    Ok(())
}

// The origin and the number of a refusal.
fn told(answer: Result<(), network::faults::Fault>) -> Result<(), (&'static str, u8)> {
    answer.map_err(|fault| (fault.origin(), fault.number()))
}

// The session refuses the tie by this number, and shows these roles before and after.
fn refuses<N: Editable, M: Measure>(
    rt: &impl Abort,
    open: &mut Open<N, M>,
    (i, j): (usize, usize),
    number: u8,
    splits: usize,
    heads: &[usize],
) {
    shows(rt, open, splits, heads);
    let tie = open.network().tie(i, j);
    assert_eq!(rt; told(open.put(i, j, 2)), Err(("network", number)));
    assert_eq!(rt; open.network().tie(i, j), tie);
    shows(rt, open, splits, heads);
}

#[test]
fn a_refused_put_alters_nothing(rt: HostRuntime) -> Result<(), Fail> {
    let mut open = chain(&rt, rt.alloc(), 4)?;
    assert_eq!(rt; open.colour(1, 7), Ok(()));
    refuses(&rt, &mut open, (0, 4), 3, 0, &[0, 1, 0, 0]);
    assert!(rt; open.step() != Step::Stable);
    refuses(&rt, &mut open, (4, 0), 3, 1, &[0, 1, 2, 2]);
    // The colours are still there.
    assert_eq!(rt; open.put(0, 1, 1), Ok(()));
    shows(&rt, &open, 0, &[0, 1, 0, 0]);
    let (network, Kinds) = open.into_parts();
    let memory = network.into_memory();
    assert!(rt; memory.as_slice() == [0, 1, 0, 0, 0, 0, 1, 0, 0, 0, 0, 1, 0, 0, 0, 0].as_slice());
    Ok(())
}

#[test]
fn a_pair_that_is_not_allowed_is_refused(rt: HostRuntime) -> Result<(), Fail> {
    let open = tied(&rt, NoLoops(matrix(rt.alloc(), 5)?), Kinds, &TEAMS);
    let mut open = settles(&rt, open, &Kinds, 1, &[0, 1, 1, 0, 1]);
    refuses(&rt, &mut open, (1, 1), 4, 1, &[0, 1, 1, 0, 1]);
    refuses(&rt, &mut open, (5, 5), 3, 1, &[0, 1, 1, 0, 1]);
    let exams = TwoMode::new(3, 2, vec![in rt.alloc(); 0; 6]?);
    let open = tied(&rt, exams, Kinds, &[(0, 3), (1, 3)]);
    let mut open = settles(&rt, open, &Kinds, 2, &[0, 0, 2, 3, 2]);
    refuses(&rt, &mut open, (3, 0), 4, 2, &[0, 0, 2, 3, 2]);
    Ok(())
}

#[test]
fn a_refused_colour_alters_nothing(rt: HostRuntime) -> Result<(), Fail> {
    let mut open = chain(&rt, rt.alloc(), 3)?;
    assert_eq!(rt; open.colour(1, 7), Ok(()));
    let mut open = settles(&rt, open, &Kinds, 1, &[0, 1, 2]);
    assert_eq!(rt; open.colour(3, 7), Err(Fault::Node));
    shows(&rt, &open, 1, &[0, 1, 2]);
    // No node took the colour.
    assert_eq!(rt; open.colour(1, 7), Ok(()));
    shows(&rt, &open, 0, &[0, 1, 0]);
    Ok(())
}

#[test]
fn each_fault_has_its_number(rt: HostRuntime) {
    assert_eq!(rt; Fault::Node.number(), 3);
    assert_eq!(rt; Fault::Role.number(), 11);
    assert_eq!(rt; Fault::Node.origin(), "session");
    assert_eq!(rt; Fault::Role.origin(), "session");
}
