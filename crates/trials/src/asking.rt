// A small question, put to a settled session and held against the truth.
use super::case::{At, Case};
use super::tables::head;
use super::totals::Weighing;
use super::trouble::Trouble;
use super::truth::{answered, truths};
use measure::Measure;
use network::Editable;
use question::Line;
use session::Settled;
use std::alloc::AllocError;

// Enough for six lines of nine nodes, and more.
const ROOM: usize = 60;

// A question with each kind of line, and tests that the measure has.
fn small_question(weighing: Weighing) -> [Line; 6] {
    let (first, second, third) = match weighing {
        Weighing::Kinds => (0, 8, 0),
        Weighing::Bundles => (1, 8, 9),
        Weighing::Tally => (0, 129, 128),
    };
    [
        Line::colour(0),
        Line::tied(0, first),
        Line::not(1),
        Line::tied(2, second),
        Line::and(2, 3),
        Line::tied(4, third),
    ]
}

/// The head of each role, in the order of their numbers.
pub(crate) fn heads(case: &Case, table: &[u8]) -> Result<Vec<usize>, AllocError> {
    let mut heads = Vec::new(case.heap);
    for role in 0..u8::MAX {
        let Some(x) = head(table, role) else {
            break;
        };
        heads.push(x)?;
    }
    Ok(heads)
}

/// Every node, in order.
pub(crate) fn nodes(case: &Case) -> Result<Vec<usize>, AllocError> {
    (0..case.book.nodes).collect(case.heap)
}

// Holds an answer, and what it left in the area.
fn hold_answer(
    case: &Case,
    asked: &str,
    question: &[Line],
    places: &[usize],
    given: Result<usize, question::Fault>,
    area: &[u8; ROOM],
) -> Result<(), Trouble> {
    let wanted = answered(case, question, places, &[7; ROOM])?;
    case.hold(asked, given, wanted.start)?;
    let left = wanted.area.as_slice();
    if &area[..] != left {
        let heap = case.heap;
        let what = format!(in heap; "{asked} leaves {area:?}, and not {left:?}");
        return Err(case.differs(what));
    }
    Ok(())
}

// Holds the byte at each node's role in an ask's last row against the truth of the node.
fn hold_agreement(case: &Case, question: &[Line], table: &[u8], row: &[u8]) -> Result<(), Trouble> {
    let rows = truths(case, question)?;
    let last = rows.last().map_or(&[][..], |row| row.as_slice());
    for (x, (&role, &truth)) in table.iter().zip(last.iter()).enumerate() {
        case.hold(
            At("ask at the role of node", x),
            row.get(usize::from(role)),
            Some(&truth),
        )?;
    }
    Ok(())
}

/// Asks node by node, and then role by role.
pub(crate) fn hold_question<N: Editable, M: Measure>(
    case: &Case,
    settled: &Settled<N, M>,
) -> Result<(), Trouble> {
    let question = small_question(case.weighing);
    let mut area = [7; ROOM];
    let given = settled.look(&question, &mut area);
    hold_answer(case, "look", &question, &nodes(case)?, given, &area)?;
    let mut area = [7; ROOM];
    let given = settled.ask(&question, &mut area);
    let table = settled.table();
    hold_answer(case, "ask", &question, &heads(case, table)?, given, &area)?;
    let start = given.unwrap_or(ROOM);
    hold_agreement(case, &question, table, area.get(start..).unwrap_or(&[]))
}
