// The vet of every table of a network.
use super::book::MOST;
use super::case::{At, Case};
use super::search::is_regular;
use super::totals::total_toward;
use super::trouble::Trouble;
use driving::known::Irregular;
use equivalence::{Fault, vet};
use measure::Measure;
use network::Readable;
use std::alloc::AllocError;

// More bytes than any network of the trials has nodes.
const LONG: usize = MOST + 1;

// Whether these nodes show that a table is not regular: x is below y and in its role, and they
// differ toward the role of z.
fn shows(case: &Case, table: &[u8], x: usize, y: usize, z: usize) -> bool {
    let (Some(&first), Some(&second), Some(&toward)) = (table.get(x), table.get(y), table.get(z))
    else {
        return false;
    };
    let total = |node| total_toward(case, node, table, toward);
    x < y && first == second && total(x) != total(y)
}

// Holds the vet's answer on one table.
fn hold_vet<N: Readable, M: Measure>(
    case: &Case,
    network: &N,
    measure: &M,
    table: &[u8],
) -> Result<(), Trouble> {
    let given = vet(network, measure, table);
    let right = match given {
        Ok(None) => is_regular(case, table),
        Ok(Some((x, y, z))) => !is_regular(case, table) && shows(case, table, x, y, z),
        Err(_) => false,
    };
    if right {
        return Ok(());
    }
    let heap = case.heap;
    Err(case.differs(format!(in heap; "the vet of {table:?} gives {given:?}")))
}

// The same table under other names.
fn renamed(case: &Case, table: &[u8]) -> Result<Vec<u8>, AllocError> {
    table.iter().map(|&role| u8::MAX - role).collect(case.heap)
}

/// Holds the vet of a table that is known not to be regular: it gives the only nodes that show it.
pub(crate) fn hold_irregular<N: Readable, M: Measure>(
    case: &Case,
    network: &N,
    measure: &M,
    irregular: &Irregular,
) -> Result<(), Trouble> {
    let &Irregular { table, witness } = irregular;
    let given = vet(network, measure, table);
    case.hold("the vet of an irregular table", given, Ok(Some(witness)))?;
    for x in 0..case.book.nodes {
        for y in 0..case.book.nodes {
            for z in 0..case.book.nodes {
                let given = shows(case, table, x, y, z);
                case.hold(At("a witness at node", x), given, (x, y, z) == witness)?;
            }
        }
    }
    Ok(())
}

/// Holds the vet of every table under two names, and of one that is too long.
pub(crate) fn hold_vets<N: Readable, M: Measure>(
    case: &Case,
    network: &N,
    measure: &M,
    tables: &[Vec<u8>],
) -> Result<(), Trouble> {
    for table in tables {
        hold_vet(case, network, measure, table)?;
        hold_vet(case, network, measure, &renamed(case, table)?)?;
    }
    let long = vet(network, measure, &[0; LONG]);
    case.hold("the vet of a long table", long, Err(Fault::Length))
}
