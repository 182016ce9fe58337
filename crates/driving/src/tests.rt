// Lists of calls, with what they reply and what they leave.
use super::call::{Call, Edit, Exchange, Move, Reply, Tell, Write};
use super::drive::drive;
use super::known::{KnownNetwork, Start, Weighing, known_networks};
use equivalence::vetting::vet;
use measure::bundles::Bundles;
use measure::interface::Measure;
use measure::kinds::Kinds;
use measure::tally::Tally;
use network::faults::Fault as NetworkFault;
use network::interface::Editable;
use network::matrix::Matrix;
use network::slot::Slot;
use network::slot_list::SlotList;
use network::two_mode::TwoMode;
use question::faults::Fault as QuestionFault;
use question::line::Line;
use session::faults::Fault as SessionFault;
use session::role::Role;
use session::step::Step;
use std::alloc::Global;
use std::process::Abort;
use std::test::Fail;

// A matrix of n nodes without ties.
fn matrix(heap: Global, n: usize) -> Result<Matrix, Fail> {
    Ok(Matrix::new(n, vec![in heap; 0; n.saturating_mul(n)]?))
}

// Each call, lent the area of its place, as far as there are areas.
fn lent<'q, 'a, const N: usize>(
    heap: Global,
    calls: &[(Call<'q>, Reply)],
    areas: &'a mut [[u8; N]],
) -> Result<Vec<Exchange<'q, 'a>>, Fail> {
    let mut exchanges = Vec::new(heap);
    for (&(call, _), area) in calls.iter().zip(areas.iter_mut()) {
        exchanges.push(Exchange::of(call, area))?;
    }
    Ok(exchanges)
}

// Asserts that each call was given, and has the reply that stands beside it.
fn assert_told(rt: &impl Abort, exchanges: &[Exchange<'_, '_>], calls: &[(Call<'_>, Reply)]) {
    assert_eq!(rt; exchanges.len(), calls.len());
    for (k, (exchange, &(_, wanted))) in exchanges.iter().zip(calls.iter()).enumerate() {
        assert_eq!(rt; exchange.reply, wanted, "call {k}");
    }
}

#[test]
fn without_calls_all_nodes_are_one_role(rt: HostRuntime) -> Result<(), Fail> {
    let heap = rt.alloc();
    let settled = drive(matrix(heap, 3)?, Kinds, &mut []);
    assert_eq!(rt; (settled.roles(), settled.splits()), (1, 0));
    Ok(())
}

#[test]
fn each_call_has_its_reply(rt: HostRuntime) -> Result<(), Fail> {
    let heap = rt.alloc();
    let question = [Line::colour(1), Line::tied(0, 0)];
    let calls = [
        (Call::Edit(Edit::Put(0, 1, 1)), Reply::Put(Ok(()))),
        (
            Call::Edit(Edit::Put(1, 3, 1)),
            Reply::Put(Err(NetworkFault::Node)),
        ),
        (
            Call::Edit(Edit::Colour(3, 1)),
            Reply::Colour(Err(SessionFault::Node)),
        ),
        (Call::Edit(Edit::Colour(1, 1)), Reply::Colour(Ok(()))),
        (Call::Write(Write::Ask(&question)), Reply::NotTaken),
        (Call::Move(Move::Reopen), Reply::NotTaken),
        (Call::Write(Write::Look(&question)), Reply::Look(Ok(3))),
        (Call::Tell(Tell::Roles), Reply::Roles(2)),
        (
            Call::Move(Move::Step),
            Reply::Step(Step::Split {
                part: 0,
                toward: 1,
                fresh: 2,
            }),
        ),
        (Call::Tell(Tell::Splits), Reply::Splits(1)),
        (Call::Move(Move::Settle), Reply::Settled),
        (Call::Move(Move::Settle), Reply::NotTaken),
        (Call::Edit(Edit::Put(1, 2, 1)), Reply::NotTaken),
        (Call::Edit(Edit::Colour(2, 1)), Reply::NotTaken),
        (Call::Move(Move::Step), Reply::NotTaken),
        (Call::Tell(Tell::Roles), Reply::Roles(3)),
        (
            Call::Tell(Tell::RoleOf(3)),
            Reply::RoleOf(Err(SessionFault::Node)),
        ),
        (
            Call::Tell(Tell::Role(3)),
            Reply::Role(Err(SessionFault::Role)),
        ),
        (Call::Move(Move::Reopen), Reply::Reopened),
        (Call::Move(Move::Step), Reply::Step(Step::Stable)),
    ];
    let mut areas = [[7; 7]; 20];
    let mut exchanges = lent(heap, &calls, &mut areas)?;
    let settled = drive(matrix(heap, 3)?, Kinds, &mut exchanges);
    assert_told(&rt, &exchanges, &calls);
    drop(exchanges);
    // Look's rows: node 1 has colour 1, and node 0 has a tie to it.
    let rows = [0, 1, 0, 1, 0, 0, 7];
    for (k, &area) in areas.iter().enumerate() {
        let wanted = if k == 6 { rows } else { [7; 7] };
        assert_eq!(rt; area, wanted, "area {k}");
    }
    assert_eq!(rt; (settled.roles(), settled.splits()), (3, 1));
    Ok(())
}

#[test]
fn a_put_after_settling_is_taken_once_the_session_is_open_again(
    rt: HostRuntime,
) -> Result<(), Fail> {
    let heap = rt.alloc();
    let calls = [
        (Call::Edit(Edit::Put(0, 1, 1)), Reply::Put(Ok(()))),
        (Call::Move(Move::Settle), Reply::Settled),
        (Call::Tell(Tell::Roles), Reply::Roles(3)),
        (Call::Edit(Edit::Put(2, 1, 1)), Reply::NotTaken),
        (Call::Move(Move::Reopen), Reply::Reopened),
        (Call::Edit(Edit::Put(2, 1, 1)), Reply::Put(Ok(()))),
        (Call::Move(Move::Settle), Reply::Settled),
        (Call::Tell(Tell::Roles), Reply::Roles(2)),
        (
            Call::Tell(Tell::Role(0)),
            Reply::Role(Ok(Role { head: 0, size: 2 })),
        ),
    ];
    let mut areas = [[]; 9];
    let mut exchanges = lent(heap, &calls, &mut areas)?;
    let settled = drive(matrix(heap, 3)?, Kinds, &mut exchanges);
    assert_told(&rt, &exchanges, &calls);
    assert_eq!(rt; vet(settled.network(), &Kinds, settled.table()), Ok(None));
    Ok(())
}

#[test]
fn each_question_has_an_area_of_its_own(rt: HostRuntime) -> Result<(), Fail> {
    let heap = rt.alloc();
    // Students 0 to 2, exams 3 and 4: who has passed an exam, and who has not?
    let exams = TwoMode::new(3, 2, vec![in heap; 0; 6]?);
    let lines = [
        Line::colour(9),
        Line::not(0),
        Line::tied(1, 0),
        Line::not(2),
    ];
    let question = &lines[..];
    let calls = [
        (Call::Edit(Edit::Put(0, 3, 1)), Reply::Put(Ok(()))),
        (Call::Edit(Edit::Put(1, 3, 1)), Reply::Put(Ok(()))),
        (
            Call::Edit(Edit::Put(3, 0, 1)),
            Reply::Put(Err(NetworkFault::Pair)),
        ),
        (Call::Write(Write::Look(question)), Reply::Look(Ok(15))),
        (
            Call::Write(Write::Look(&question[..0])),
            Reply::Look(Err(QuestionFault::Lines)),
        ),
        (
            Call::Write(Write::Look(&question[1..])),
            Reply::Look(Err(QuestionFault::Later(0))),
        ),
        (Call::Move(Move::Settle), Reply::Settled),
        (Call::Write(Write::Ask(question)), Reply::Ask(Ok(9))),
        (
            Call::Write(Write::Ask(&question[1..])),
            Reply::Ask(Err(QuestionFault::Later(0))),
        ),
    ];
    let mut areas = [[7; 21]; 9];
    let mut exchanges = lent(heap, &calls, &mut areas)?;
    let settled = drive(exams, Kinds, &mut exchanges);
    assert_told(&rt, &exchanges, &calls);
    drop(exchanges);
    let (looked, asked) = (areas[3], areas[7]);
    assert_eq!(rt;
        looked,
        [
            0, 0, 0, 0, 0, 1, 1, 1, 1, 1, 1, 1, 0, 0, 0, 0, 0, 1, 1, 1, 7
        ]
    );
    // Ask's rows have a byte for each role: who has passed, who or what has no tie, and the exam
    // that was passed.
    assert_eq!(rt;
        asked,
        [
            0, 0, 0, 1, 1, 1, 1, 0, 0, 0, 1, 1, 7, 7, 7, 7, 7, 7, 7, 7, 7
        ]
    );
    for x in 0..5 {
        let role = settled.role_of(x).unwrap_or_default();
        assert_eq!(rt;
            asked.get(role.saturating_add(9)),
            looked.get(x.saturating_add(15)),
            "node {x}"
        );
    }
    // What was refused, and each call that asks nothing, has left its area as it was.
    for (k, &area) in areas.iter().enumerate() {
        if k != 3 && k != 7 {
            assert_eq!(rt; area, [7; 21], "area {k}");
        }
    }
    Ok(())
}

#[test]
fn an_ask_answers_each_node_as_a_look_does(rt: HostRuntime) -> Result<(), Fail> {
    let heap = rt.alloc();
    let question = [Line::colour(0), Line::tied(0, 0)];
    let roles = [0, 1, 0, 2];
    // Nodes 0 and 2 have a tie to node 1 until the session is open again.
    let calls = [
        (Call::Edit(Edit::Put(0, 1, 1)), Reply::Put(Ok(()))),
        (Call::Edit(Edit::Put(2, 1, 1)), Reply::Put(Ok(()))),
        (Call::Move(Move::Settle), Reply::Settled),
        (Call::Tell(Tell::RoleOf(0)), Reply::RoleOf(Ok(roles[0]))),
        (Call::Tell(Tell::RoleOf(1)), Reply::RoleOf(Ok(roles[1]))),
        (Call::Write(Write::Ask(&question)), Reply::Ask(Ok(3))),
        (Call::Tell(Tell::RoleOf(2)), Reply::RoleOf(Ok(roles[2]))),
        (Call::Tell(Tell::RoleOf(3)), Reply::RoleOf(Ok(roles[3]))),
        (Call::Write(Write::Look(&question)), Reply::Look(Ok(4))),
        (Call::Move(Move::Reopen), Reply::Reopened),
        (Call::Edit(Edit::Put(2, 1, 0)), Reply::Put(Ok(()))),
        (Call::Edit(Edit::Put(3, 0, 1)), Reply::Put(Ok(()))),
        (Call::Move(Move::Settle), Reply::Settled),
    ];
    let mut areas = [[7; 9]; 13];
    let mut exchanges = lent(heap, &calls, &mut areas)?;
    let settled = drive(matrix(heap, 4)?, Kinds, &mut exchanges);
    assert_told(&rt, &exchanges, &calls);
    drop(exchanges);
    let (asked, looked) = (areas[5], areas[8]);
    assert_eq!(rt; looked, [1, 1, 1, 1, 1, 0, 1, 0, 7]);
    assert_eq!(rt; asked, [1, 1, 1, 1, 0, 0, 7, 7, 7]);
    for (x, &role) in roles.iter().enumerate() {
        assert_eq!(rt;
            asked.get(role.saturating_add(3)),
            looked.get(x.saturating_add(4)),
            "node {x}"
        );
    }
    assert_eq!(rt; settled.roles(), 4);
    Ok(())
}

#[test]
fn the_network_without_nodes_takes_questions_only(rt: HostRuntime) -> Result<(), Fail> {
    let heap = rt.alloc();
    let question = [Line::colour(0), Line::not(0)];
    let calls = [
        (
            Call::Edit(Edit::Put(0, 0, 1)),
            Reply::Put(Err(NetworkFault::Node)),
        ),
        (
            Call::Edit(Edit::Colour(0, 1)),
            Reply::Colour(Err(SessionFault::Node)),
        ),
        (Call::Move(Move::Step), Reply::Step(Step::Stable)),
        (Call::Write(Write::Look(&question)), Reply::Look(Ok(0))),
        (Call::Move(Move::Settle), Reply::Settled),
        (Call::Write(Write::Ask(&question)), Reply::Ask(Ok(0))),
        (Call::Tell(Tell::Roles), Reply::Roles(0)),
    ];
    let nothing = Matrix::new(3, vec![in heap; 0; 8]?);
    let mut areas = [[]; 7];
    let mut exchanges = lent(heap, &calls, &mut areas)?;
    let settled = drive(nothing, Kinds, &mut exchanges);
    assert_told(&rt, &exchanges, &calls);
    assert_eq!(rt; settled.table().len(), 0);
    Ok(())
}

// Draws the network, settles it, and holds it against what is known of it.
fn assert_known<N: Editable + Drop, M: Measure + Copy>(
    rt: &impl Abort,
    heap: Global,
    known: &KnownNetwork,
    network: N,
    measure: M,
) -> Result<(), Fail> {
    let mut exchanges = Vec::new(heap);
    for &(edit, _) in known.edits {
        exchanges.push(Exchange::of(Call::Edit(edit), &mut []))?;
    }
    let settled = drive(network, measure, &mut exchanges);
    for (exchange, &(_, reply)) in exchanges.iter().zip(known.edits.iter()) {
        assert_eq!(rt; exchange.reply, reply);
    }
    assert_eq!(rt;
        (settled.roles(), settled.splits()),
        (known.roles, known.splits)
    );
    for (x, &head) in known.table.iter().enumerate() {
        let role = settled.role_of(x).unwrap_or_default();
        let told = settled.role(role).map(|role| role.head);
        assert_eq!(rt; told, Ok(usize::from(head)), "node {x}");
    }
    let network = settled.network();
    assert_eq!(rt; vet(network, &measure, known.table), Ok(None));
    for irregular in known.irregular {
        assert_eq!(rt;
            vet(network, &measure, irregular.table),
            Ok(Some(irregular.witness))
        );
    }
    Ok(())
}

// The same, by this measure.
fn assert_known_by<M: Measure + Copy>(
    rt: &impl Abort,
    heap: Global,
    known: &KnownNetwork,
    measure: M,
) -> Result<(), Fail> {
    match known.start {
        Start::Matrix(n) => assert_known(rt, heap, known, matrix(heap, n)?, measure),
        Start::TwoMode(a, b) => {
            let memory = vec![in heap; 0; a.saturating_mul(b)]?;
            assert_known(rt, heap, known, TwoMode::new(a, b, memory), measure)
        }
        Start::List(n, s) => {
            let memory = vec![in heap; Slot::Free; s]?;
            assert_known(rt, heap, known, SlotList::new(n, memory), measure)
        }
    }
}

#[test]
fn each_known_network_settles_into_its_table(rt: HostRuntime) -> Result<(), Fail> {
    let heap = rt.alloc();
    for known in &known_networks() {
        match known.weighing {
            Weighing::Kinds => assert_known_by(&rt, heap, known, Kinds)?,
            Weighing::Bundles => assert_known_by(&rt, heap, known, Bundles)?,
            Weighing::Tally => assert_known_by(&rt, heap, known, Tally)?,
        }
    }
    Ok(())
}
