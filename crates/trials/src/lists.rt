// Random lists of calls on the networks of a shape.
use super::book::Tie;
use super::case::Case;
use super::counts::Tried;
use super::dice::Dice;
use super::drawing::Drawing;
use super::listing::Listing;
use super::shapes::{Shape, run_on};
use super::tables::all_tables;
use super::totals::{WEIGHINGS, Weighing};
use super::trouble::Trouble;
use super::turns::turns;
use std::alloc::{AllocError, Global};

// Ties that stand below a layer when the list begins: some loops, where it takes none.
fn loops(heap: Global, dice: &mut Dice, nodes: usize) -> Result<Vec<Tie>, AllocError> {
    let mut loops = Vec::new(heap);
    for node in 0..nodes {
        if dice.is_one_in(3) {
            loops.push(Tie {
                from: node,
                to: node,
                byte: dice.byte(&[1, 2, 9]),
            })?;
        }
    }
    Ok(loops)
}

// Drives one list.
fn hold_list(
    heap: Global,
    dice: &mut Dice,
    shape: Shape,
    weighing: Weighing,
    tried: Tried,
) -> Result<Tried, Trouble> {
    let fewest = shape.fewest();
    let nodes = fewest.saturating_add(dice.below(6usize.saturating_sub(fewest)));
    let below = match shape {
        Shape::NoLoops => loops(heap, dice, nodes)?,
        _ => Vec::new(heap),
    };
    let drawing = Drawing::of(heap, shape, nodes, &below)?;
    let tables = all_tables(heap, nodes)?;
    let turns = turns(heap, dice, shape, nodes)?;
    let case = Case::of(heap, weighing, &drawing);
    let mut listing = Listing {
        case,
        tables: &tables,
        turns: &turns,
        tried,
    };
    run_on(&case, &drawing, &mut listing)?;
    Ok(listing.tried)
}

/// Drives so many lists on networks of a shape, by each measure.
pub(crate) fn hold_lists(
    heap: Global,
    seed: u64,
    shape: Shape,
    lists: usize,
) -> Result<Tried, Trouble> {
    let mut dice = Dice::new(seed);
    let mut tried = Tried::default();
    for _ in 0..lists {
        for weighing in WEIGHINGS {
            tried = hold_list(heap, &mut dice, shape, weighing, tried)?;
        }
    }
    Ok(tried)
}
