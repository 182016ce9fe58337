// Families of networks: each network of a shape and size whose bytes are below a bound.
use super::book::Tie;
use super::case::Case;
use super::counts::Counts;
use super::drawing::Drawing;
use super::search::Search;
use super::settling::Settling;
use super::shapes::Shape;
use super::tables::all_tables;
use super::totals::{WEIGHINGS, Weighing};
use super::trouble::Trouble;
use std::alloc::{AllocError, Global};

/// Every network of the shape with so many nodes and with so many bytes, 0 and up, from every
/// colouring by so many colours.
#[derive(Clone, Copy)]
pub(crate) struct Family {
    pub(crate) shape: Shape,
    pub(crate) nodes: usize,
    pub(crate) bytes: u8,
    pub(crate) colours: u8,
}

// What the networks of a family have in common.
#[derive(Drop)]
struct Common {
    family: Family,
    heap: Global,
    tables: Vec<Vec<u8>>,
    colourings: Vec<Vec<u8>>,
}

// Each row with one digit more.
fn longer(heap: Global, rows: &[Vec<u8>], base: u8) -> Result<Vec<Vec<u8>>, AllocError> {
    let mut longer = Vec::new(heap);
    for row in rows {
        for digit in 0..base {
            let mut next = row.clone()?;
            next.push(digit)?;
            longer.push(next)?;
        }
    }
    Ok(longer)
}

// All rows of so many digits below the base.
fn all_rows(heap: Global, length: usize, base: u8) -> Result<Vec<Vec<u8>>, AllocError> {
    let mut rows = Vec::new(heap);
    rows.push(Vec::new(heap))?;
    for _ in 0..length {
        rows = longer(heap, &rows, base)?;
    }
    Ok(rows)
}

impl Family {
    // The pairs that may be tied, with byte 0. Through no-loops also those that only the network
    // below can tie.
    fn pairs(self, heap: Global) -> Result<Vec<Tie>, AllocError> {
        let mut pairs = Vec::new(heap);
        for from in 0..self.nodes {
            for to in 0..self.nodes {
                let pair = Tie { from, to, byte: 0 };
                if self.shape.holds(pair) {
                    pairs.push(pair)?;
                }
            }
        }
        Ok(pairs)
    }
}

// The ties that a row of bytes makes of the pairs.
fn ties(heap: Global, pairs: &[Tie], bytes: &[u8]) -> Result<Vec<Tie>, AllocError> {
    let mut ties = Vec::new(heap);
    for (&pair, &byte) in pairs.iter().zip(bytes.iter()) {
        if byte > 0 {
            ties.push(Tie { byte, ..pair })?;
        }
    }
    Ok(ties)
}

impl Common {
    fn of(heap: Global, family: Family) -> Result<Common, AllocError> {
        Ok(Common {
            family,
            heap,
            tables: all_tables(heap, family.nodes)?,
            colourings: all_rows(heap, family.nodes, family.colours)?,
        })
    }

    // Settles one network by one measure from each colouring, and vets each table once.
    fn hold_by(
        &self,
        weighing: Weighing,
        drawing: &Drawing,
        counts: &mut Counts,
    ) -> Result<(), Trouble> {
        let heap = self.heap;
        let case = Case::of(heap, weighing, drawing);
        let search = Search::among(&case, &self.tables)?;
        let mut vetted = self.tables.as_slice();
        for colours in &self.colourings {
            let Some(coarsest) = search.coarsest(colours) else {
                return Err(case.differs(format!(in heap; "no table is coarsest of {colours:?}")));
            };
            let mut settling = Settling {
                case: case.coloured(colours),
                drawing,
                coarsest,
                vetted,
                irregular: &[],
            };
            settling.hold()?;
            counts.settled = counts.settled.saturating_add(1);
            counts.vetted = counts.vetted.saturating_add(vetted.len());
            vetted = &[];
        }
        Ok(())
    }

    // Holds the network with these ties by each measure.
    fn hold_network(&self, ties: &[Tie], counts: &mut Counts) -> Result<(), Trouble> {
        let Family { shape, nodes, .. } = self.family;
        let drawing = Drawing::of(self.heap, shape, nodes, ties)?;
        for weighing in WEIGHINGS {
            self.hold_by(weighing, &drawing, counts)?;
        }
        counts.networks = counts.networks.saturating_add(1);
        Ok(())
    }
}

/// Holds every network of the family.
pub(crate) fn hold_family(heap: Global, family: Family) -> Result<Counts, Trouble> {
    let common = Common::of(heap, family)?;
    let pairs = family.pairs(heap)?;
    let mut counts = Counts::default();
    for bytes in all_rows(heap, pairs.len(), family.bytes)?.iter() {
        common.hold_network(&ties(heap, &pairs, bytes)?, &mut counts)?;
    }
    Ok(counts)
}
