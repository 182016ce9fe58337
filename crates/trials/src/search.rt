// Which tables are regular, and which of them is the coarsest, by trying all.
use super::case::Case;
use super::tables::{refines, role_count};
use super::totals::total_toward;
use std::alloc::AllocError;

// Whether nodes x and y have equal totals toward every role.
fn agree(case: &Case, table: &[u8], x: usize, y: usize) -> bool {
    table.iter().all(|&z| total_toward(case, x, table, z) == total_toward(case, y, table, z))
}

/// Whether any two nodes of one role have equal totals toward every role.
pub(crate) fn is_regular(case: &Case, table: &[u8]) -> bool {
    table.iter().enumerate().all(|(x, &role)| {
        let mut others = table.iter().enumerate().skip(x.saturating_add(1));
        others.all(|(y, &other)| role != other || agree(case, table, x, y))
    })
}

/// The regular tables of a network.
#[derive(Drop)]
pub(crate) struct Search {
    pub(crate) regular: Vec<Vec<u8>>,
}

impl Search {
    /// The regular ones of the tables.
    pub(crate) fn among(case: &Case, tables: &[Vec<u8>]) -> Result<Search, AllocError> {
        let mut regular = Vec::new(case.heap);
        for table in tables {
            if is_regular(case, table) {
                regular.push(table.clone()?)?;
            }
        }
        Ok(Search { regular })
    }

    // Whether every regular table within the classes refines this one, and has as many roles.
    fn is_coarsest(&self, classes: &[u8], table: &[u8]) -> bool {
        self.regular
            .iter()
            .filter(|other| refines(other, classes))
            .all(|other| refines(other, table) && role_count(other) >= role_count(table))
    }

    /// The coarsest regular table within the classes. None where there is not just one.
    pub(crate) fn coarsest(&self, classes: &[u8]) -> Option<&Vec<u8>> {
        let mut coarsest = self.regular.iter().filter(|&table| refines(table, classes)
            && self.is_coarsest(classes, table));
        let first = coarsest.next();
        if coarsest.next().is_some() {
            return None;
        }
        first
    }
}
