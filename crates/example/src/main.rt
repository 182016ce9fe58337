// The engine from a host's code: a network over memory, the vet, a session, and a question.

#![tactic(auto)]

// What goes wrong.
mod trouble;

use equivalence::vet;
use measure::Kinds;
use network::{Editable, Matrix};
use question::Line;
use session::{Open, Role};
use trouble::Trouble;

fn main(rt: HostRuntime) -> Result<(), Trouble> {
    let heap = rt.alloc();
    let memory = vec![in heap; 0; 9]?;
    Matrix::check(3, &memory)?;
    let mut network = Matrix::new(3, memory);
    network.put(0, 1, 1)?;
    network.put(2, 1, 1)?;

    match vet(&network, &Kinds, &[0, 1, 1])? {
        None => println!(rt; "The table is regular.")?,
        Some((x, y, z)) => println!(rt;
            "Nodes {x} and {y} share a role, and differ toward the role of node {z}."
        )?,
    }

    let mut session = Open::new(network, Kinds);
    session.colour(1, 7)?;
    let settled = session.settle();
    let number = settled.role_of(2)?;
    let Role { head, size } = settled.role(number)?;
    println!(rt; "Node 2 is in a role of {size} nodes with head {head}.")?;

    // Who has a tie of kind 0 to a node of colour 7?
    let question = [Line::colour(7), Line::tied(0, 0)];
    let mut area = [0; 6];
    let last = settled.ask(&question, &mut area)?;
    if area[last + number] == 1 {
        println!(rt; "It has a tie to a node of colour 7.")?;
    }
    Ok(())
}
