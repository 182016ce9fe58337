// What a step may do: which role it splits, and toward which, is free.
use super::case::Case;
use super::search::is_regular;
use super::tables::{head, in_order, label, role_count, role_headed};
use super::totals::total_toward;
use session::Step;
use std::alloc::AllocError;

/// A step's answer, held against the table before it.
#[derive(Drop)]
pub(crate) enum Stepped {
    /// The answer is right, and the table stays.
    Stable,
    /// The answer is right, and this is the table after it.
    Split(Vec<u8>),
    Wrong,
}

// The table after nodes leave the role of head `part`: those that have not its total toward the
// role of head `toward`. The lowest of them has to be `fresh`.
fn split(
    case: &Case,
    table: &[u8],
    part: usize,
    toward: usize,
    fresh: usize,
) -> Result<Stepped, AllocError> {
    let (Some(parted), Some(toward)) = (role_headed(table, part), role_headed(table, toward)) else {
        return Ok(Stepped::Wrong);
    };
    let kept = total_toward(case, part, table, toward);
    let new = label(role_count(table));
    let mut next = Vec::new(case.heap);
    for (x, &role) in table.iter().enumerate() {
        let leaves = role == parted && total_toward(case, x, table, toward) != kept;
        next.push(if leaves { new } else { role })?;
    }
    if head(&next, new) != Some(fresh) {
        return Ok(Stepped::Wrong);
    }
    Ok(Stepped::Split(in_order(case.heap, &next)?))
}

/// Holds a step's answer against the table that it was given.
pub(crate) fn after_step(case: &Case, table: &[u8], step: Step) -> Result<Stepped, AllocError> {
    match step {
        Step::Stable if is_regular(case, table) => Ok(Stepped::Stable),
        Step::Stable => Ok(Stepped::Wrong),
        Step::Split {
            part,
            toward,
            fresh,
        } => split(case, table, part, toward, fresh),
    }
}
