// Lists of calls, drawn at random: valid ones, and ones that are refused or not taken.
use super::dice::Dice;
use super::questions::{COLOURS, any_question};
use super::shapes::Shape;
use driving::call::{Call, Edit, Move, Tell, Write};
use question::Line;
use std::alloc::{AllocError, Global};

/// A call without its question.
#[derive(Clone, Copy, Debug)]
pub(crate) enum Choice {
    Put(usize, usize, u8),
    Colour(usize, u8),
    Step,
    Settle,
    Reopen,
    Look,
    Ask,
    Roles,
    Splits,
    RoleOf(usize),
    Role(usize),
}

/// A call with its question, and what stands in the area that it is lent.
#[derive(Debug, Drop)]
pub(crate) struct Turn {
    pub(crate) choice: Choice,
    pub(crate) question: Vec<Line>,
    pub(crate) area: Vec<u8>,
}

impl Turn {
    /// The call, as the engine takes it.
    pub(crate) fn call(&self) -> Call<'_> {
        match self.choice {
            Choice::Put(i, j, b) => Call::Edit(Edit::Put(i, j, b)),
            Choice::Colour(i, c) => Call::Edit(Edit::Colour(i, c)),
            Choice::Step => Call::Move(Move::Step),
            Choice::Settle => Call::Move(Move::Settle),
            Choice::Reopen => Call::Move(Move::Reopen),
            Choice::Look => Call::Write(Write::Look(&self.question)),
            Choice::Ask => Call::Write(Write::Ask(&self.question)),
            Choice::Roles => Call::Tell(Tell::Roles),
            Choice::Splits => Call::Tell(Tell::Splits),
            Choice::RoleOf(x) => Call::Tell(Tell::RoleOf(x)),
            Choice::Role(r) => Call::Tell(Tell::Role(r)),
        }
    }
}

const BYTES: [u8; 12] = [0, 1, 1, 1, 1, 2, 3, 4, 5, 8, 129, 255];

// A pair, at times a node with itself.
fn any_pair(dice: &mut Dice, nodes: usize) -> (usize, usize) {
    let i = dice.argument(nodes);
    if dice.is_one_in(5) {
        return (i, i);
    }
    (i, dice.argument(nodes))
}

// A put or a colour. The pair is drawn once more where it may not be tied.
fn any_edit(dice: &mut Dice, shape: Shape, nodes: usize) -> Choice {
    if dice.is_one_in(4) {
        return Choice::Colour(dice.argument(nodes), dice.byte(&COLOURS));
    }
    let (mut i, mut j) = any_pair(dice, nodes);
    if !shape.allows(i, j) {
        (i, j) = any_pair(dice, nodes);
    }
    Choice::Put(i, j, dice.byte(&BYTES))
}

// Any call, on a network of so many nodes.
fn any_choice(dice: &mut Dice, shape: Shape, nodes: usize) -> Choice {
    match dice.below(20) {
        0..=2 => any_edit(dice, shape, nodes),
        3..=5 => Choice::Step,
        6..=7 => Choice::Settle,
        8 => Choice::Reopen,
        9..=10 => Choice::Look,
        11..=13 => Choice::Ask,
        14 => Choice::Roles,
        15 => Choice::Splits,
        16 => Choice::Role(dice.argument(nodes)),
        _ => Choice::RoleOf(dice.argument(nodes)),
    }
}

// Bytes that no row has, each unlike those beside it.
fn area(heap: Global, size: usize) -> Result<Vec<u8>, AllocError> {
    let mut area = Vec::new(heap);
    let mut byte = 2u8;
    for _ in 0..size {
        area.push(byte)?;
        byte = byte.checked_add(1).unwrap_or(2);
    }
    Ok(area)
}

// A call with a question and an area where it takes them, the area at times too small.
fn any_turn(
    heap: Global,
    dice: &mut Dice,
    choice: Choice,
    nodes: usize,
) -> Result<Turn, AllocError> {
    let question = match choice {
        Choice::Look | Choice::Ask => any_question(heap, dice)?,
        _ => Vec::new(heap),
    };
    let needed = question.len().saturating_mul(nodes);
    let size = if dice.is_one_in(4) {
        dice.below(needed.saturating_add(1))
    } else {
        needed.saturating_add(3)
    };
    Ok(Turn {
        choice,
        question,
        area: area(heap, size)?,
    })
}

// How many calls a list has.
fn call_count(dice: &mut Dice) -> usize {
    if dice.is_one_in(30) {
        return 0;
    }
    dice.below(16).saturating_add(7)
}

/// A list of up to 22 calls, of which the first few are puts and colours.
pub(crate) fn turns(
    heap: Global,
    dice: &mut Dice,
    shape: Shape,
    nodes: usize,
) -> Result<Vec<Turn>, AllocError> {
    let mut turns = Vec::new(heap);
    let edits = dice.below(9);
    for at in 0..call_count(dice) {
        let choice = if at < edits {
            any_edit(dice, shape, nodes)
        } else {
            any_choice(dice, shape, nodes)
        };
        turns.push(any_turn(heap, dice, choice, nodes)?)?;
    }
    Ok(turns)
}
