// Tables of roles: all of them, and how two compare.
use std::alloc::{AllocError, Global};

/// The number of a role as a table has it.
pub(crate) fn label(role: usize) -> u8 {
    u8::try_from(role).unwrap_or(u8::MAX)
}

/// The lowest node of a role.
pub(crate) fn head(table: &[u8], role: u8) -> Option<usize> {
    table.iter().position(|&its| its == role)
}

/// The role that has this node for its head.
pub(crate) fn role_headed(table: &[u8], x: usize) -> Option<u8> {
    let &role = table.get(x)?;
    (head(table, role) == Some(x)).then_some(role)
}

/// How many nodes a role has.
pub(crate) fn size(table: &[u8], role: u8) -> usize {
    table.iter().filter(|&&its| its == role).count()
}

/// How many roles there are.
pub(crate) fn role_count(table: &[u8]) -> usize {
    (0..table.len())
        .filter(|&x| role_headed(table, x).is_some())
        .count()
}

/// Whether nodes that share a role in the first table share one in the second.
pub(crate) fn refines(first: &[u8], second: &[u8]) -> bool {
    let pairs = || first.iter().zip(second.iter());
    pairs().all(|(a, b)| pairs().all(|(c, d)| a != c || b == d))
}

/// The table with its roles numbered in the order of their heads.
pub(crate) fn in_order(heap: Global, table: &[u8]) -> Result<Vec<u8>, AllocError> {
    let mut ordered: Vec<u8> = Vec::new(heap);
    let mut fresh = 0u8;
    for (x, &role) in table.iter().enumerate() {
        let head = head(table, role).unwrap_or(x);
        let number = ordered.get(head).copied().unwrap_or(fresh);
        if head == x {
            fresh = fresh.saturating_add(1);
        }
        ordered.push(number)?;
    }
    Ok(ordered)
}

// The table with one node more, in each of its roles and in one of its own.
fn add_each(heap: Global, table: &[u8], longer: &mut Vec<Vec<u8>>) -> Result<(), AllocError> {
    for role in 0..=role_count(table) {
        let mut next = Vec::new(heap);
        next.extend_from_slice(table)?;
        next.push(label(role))?;
        longer.push(next)?;
    }
    Ok(())
}

// Each table with one node more.
fn longer(heap: Global, tables: &[Vec<u8>]) -> Result<Vec<Vec<u8>>, AllocError> {
    let mut longer = Vec::new(heap);
    for table in tables {
        add_each(heap, table, &mut longer)?;
    }
    Ok(longer)
}

/// Every table of n nodes, once, its roles in order: 1, 2, 5, 15 and 52 for 1 to 5 nodes.
pub(crate) fn all_tables(heap: Global, nodes: usize) -> Result<Vec<Vec<u8>>, AllocError> {
    let mut tables = Vec::new(heap);
    tables.push(Vec::new(heap))?;
    for _ in 0..nodes {
        tables = longer(heap, &tables)?;
    }
    Ok(tables)
}
