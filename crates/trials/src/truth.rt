// What a question is true of, node by node, and what look and ask are to leave in an area.
use super::case::Case;
use super::totals::total_toward;
use question::{Fault, Line};
use std::alloc::AllocError;

// Whether line k is true of node x.
fn is_marked(rows: &[Vec<u8>], k: usize, x: usize) -> bool {
    rows.get(k).is_some_and(|row| row.get(x) == Some(&1))
}

// Whether a line is true of node x, by the rows of the lines before it.
fn is_true(case: &Case, rows: &[Vec<u8>], line: &Line, x: usize) -> bool {
    match line.code {
        0 => case.book.colours().get(x) == Some(&line.byte),
        1 => !is_marked(rows, line.k, x),
        2 => is_marked(rows, line.k, x) && is_marked(rows, line.l, x),
        3 => rows
            .get(line.k)
            .is_some_and(|row| total_toward(case, x, row, 1).holds(line.byte)),
        _ => false,
    }
}

/// A row for each line, with byte 1 at each node that it is true of.
pub(crate) fn truths(case: &Case, question: &[Line]) -> Result<Vec<Vec<u8>>, AllocError> {
    let heap = case.heap;
    let mut rows = Vec::new(heap);
    for line in question {
        let row = (0..case.book.nodes)
            .map(|x| u8::from(is_true(case, &rows, line, x)))
            .collect(heap)?;
        rows.push(row)?;
    }
    Ok(rows)
}

// Why a line is refused.
fn line_refusal(at: usize, line: &Line) -> Option<Fault> {
    let earlier = match line.code {
        0 => true,
        1 | 3 => line.k < at,
        2 => line.k < at && line.l < at,
        _ => return Some(Fault::Code(at)),
    };
    (!earlier).then_some(Fault::Later(at))
}

// Why a question is refused, asked for rows of this width in an area of this size.
fn refusal(question: &[Line], width: usize, size: usize) -> Option<Fault> {
    if question.is_empty() || question.len() > 32 {
        return Some(Fault::Lines);
    }
    for (at, line) in question.iter().enumerate() {
        if let Some(fault) = line_refusal(at, line) {
            return Some(fault);
        }
    }
    (size < question.len().saturating_mul(width)).then_some(Fault::Area)
}

/// What a question is answered, and what then stands in the area that was lent.
#[derive(Drop)]
pub(crate) struct Answer {
    pub(crate) start: Result<usize, Fault>,
    pub(crate) area: Vec<u8>,
}

/// The answer for these nodes: all of them for look, and the heads of the roles for ask.
pub(crate) fn answered(
    case: &Case,
    question: &[Line],
    places: &[usize],
    lent: &[u8],
) -> Result<Answer, AllocError> {
    let mut area = Vec::new(case.heap);
    if let Some(fault) = refusal(question, places.len(), lent.len()) {
        area.extend_from_slice(lent)?;
        let start = Err(fault);
        return Ok(Answer { start, area });
    }
    for row in truths(case, question)?.iter() {
        add_places(row, places, &mut area)?;
    }
    area.extend_from_slice(lent.get(area.len()..).unwrap_or(&[]))?;
    let last = question.len().saturating_sub(1);
    let start = Ok(last.saturating_mul(places.len()));
    Ok(Answer { start, area })
}

// Adds the bytes that a row has at these nodes.
fn add_places(row: &[u8], places: &[usize], area: &mut Vec<u8>) -> Result<(), AllocError> {
    for &x in places {
        area.push(row.get(x).copied().unwrap_or(0))?;
    }
    Ok(())
}
