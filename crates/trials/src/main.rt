// Holds what the engine's public calls give against a plain model of what they are to give.

#![tactic(auto)]

// A network with its colours, as the model keeps it.
mod book;
// Totals by the three measures.
mod totals;
// Tables of roles.
mod tables;
// The coarsest table, found among all tables.
mod search;
// The shapes of networks.
mod shapes;
// How a network comes to its ties.
mod drawing;
// One case that is held, and what differs in it.
mod case;
// What a question is true of.
mod truth;
// What a step may do.
mod steps;
// What a session tells of its roles.
mod tellings;
// A small question, put to a settled session.
mod asking;
// The vet of every table.
mod vets;
// A network settled from one colouring.
mod settling;
// How much was held.
mod counts;
// Every small network of a shape.
mod families;
// The small networks with known tables, on each shape.
mod known;
// Random numbers from a seed.
mod dice;
// Questions, drawn at random.
mod questions;
// Lists of calls, drawn at random.
mod turns;
// What the calls that alter nothing tell.
mod told;
// A list of calls replayed by the model.
mod replay;
// One list, driven and replayed.
mod listing;
// Random lists of calls.
mod lists;
// What goes wrong.
mod trouble;

use families::{Family, hold_family};
use known::hold_known;
use lists::hold_lists;
use shapes::Shape;
use std::process::ExitCode;
use trouble::Trouble;

// The families: the shape, and how many nodes, bytes and colours.
const FAMILIES: [(Shape, usize, u8, u8); 24] = [
    (Shape::Matrix, 1, 2, 1),
    (Shape::Matrix, 2, 2, 2),
    (Shape::Matrix, 2, 4, 2),
    (Shape::Matrix, 3, 2, 3),
    (Shape::Turned, 1, 2, 1),
    (Shape::Turned, 2, 2, 2),
    (Shape::Turned, 3, 2, 3),
    (Shape::NoLoops, 1, 2, 1),
    (Shape::NoLoops, 2, 2, 2),
    (Shape::NoLoops, 3, 2, 3),
    (Shape::List(1), 1, 2, 1),
    (Shape::List(4), 2, 2, 2),
    (Shape::List(9), 3, 2, 3),
    // With fewer slots than there are ties.
    (Shape::List(1), 2, 2, 2),
    (Shape::List(2), 2, 2, 2),
    (Shape::List(2), 3, 2, 3),
    (Shape::List(4), 3, 2, 3),
    (Shape::Layers(6), 3, 2, 3),
    (Shape::Layers(2), 3, 2, 3),
    (Shape::Sides(1), 2, 2, 2),
    (Shape::Sides(1), 3, 2, 3),
    (Shape::Sides(2), 3, 2, 3),
    (Shape::Sides(2), 4, 2, 4),
    (Shape::Sides(3), 5, 2, 3),
];

// The shapes on which lists of calls are driven, with the seed of their dice.
const LISTED: [(Shape, u64); 11] = [
    (Shape::Matrix, 1),
    (Shape::Turned, 2),
    (Shape::NoLoops, 3),
    (Shape::Sides(1), 4),
    (Shape::Sides(2), 5),
    (Shape::Sides(3), 6),
    (Shape::List(25), 7),
    (Shape::List(1), 8),
    (Shape::List(2), 9),
    (Shape::List(3), 10),
    (Shape::Layers(3), 11),
];

// Every small network.
fn small_networks(rt: &(impl Print + AllocGlobal)) -> Result<(), Trouble> {
    for (shape, nodes, bytes, colours) in FAMILIES {
        let family = Family {
            shape,
            nodes,
            bytes,
            colours,
        };
        let counts = hold_family(rt.alloc(), family)?;
        println!(rt; "{shape}, n = {nodes}, bytes below {bytes}: {counts}")?;
    }
    Ok(())
}

// Lists of calls on each shape.
fn random_lists(rt: &(impl Print + AllocGlobal)) -> Result<(), Trouble> {
    for (shape, seed) in LISTED {
        let tried = hold_lists(rt.alloc(), seed, shape, 150)?;
        println!(rt; "{shape}: {tried}")?;
    }
    Ok(())
}

fn run(rt: &(impl Print + AllocGlobal)) -> Result<(), Trouble> {
    small_networks(rt)?;
    let counts = hold_known(rt.alloc())?;
    println!(rt; "known tables: {counts}")?;
    random_lists(rt)
}

fn main(rt: HostRuntime) -> Result<ExitCode, Trouble> {
    match run(&rt) {
        Err(Trouble::Difference(difference)) => {
            print!(rt; "{difference}")?;
            Ok(ExitCode::from(1))
        }
        outcome => outcome.map(|()| ExitCode::SUCCESS),
    }
}
