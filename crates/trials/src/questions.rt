// Questions, drawn at random: right ones, and ones that are refused.
use super::dice::Dice;
use question::Line;
use std::alloc::{AllocError, Global};

/// The colours that are drawn.
pub(crate) const COLOURS: [u8; 6] = [0, 0, 0, 0, 1, 255];

const TESTS: [u8; 14] = [0, 1, 2, 7, 8, 9, 10, 15, 16, 63, 64, 128, 129, 255];

// A line that names earlier lines.
fn right_line(dice: &mut Dice, at: usize) -> Line {
    if at == 0 {
        return Line::colour(dice.byte(&COLOURS));
    }
    let k = dice.below(at);
    match dice.below(4) {
        0 => Line::colour(dice.byte(&COLOURS)),
        1 => Line::not(k),
        2 => Line::and(k, dice.below(at)),
        _ => Line::tied(k, dice.byte(&TESTS)),
    }
}

// Any line: its code may be unknown, and the lines that it names may be later.
fn any_line(dice: &mut Dice, at: usize) -> Line {
    Line {
        code: dice.byte(&[0, 1, 2, 3, 4, 255]),
        k: dice.argument(at.saturating_add(1)),
        l: dice.argument(at.saturating_add(1)),
        byte: dice.byte(&TESTS),
    }
}

// How many lines a question has: mostly few, and at times as many as it may or one more.
fn length(dice: &mut Dice) -> usize {
    match dice.below(20) {
        0 => 0,
        1 => 32,
        2 => 33,
        _ => dice.below(5).saturating_add(1),
    }
}

/// A question, of which one line is at times any line.
pub(crate) fn any_question(heap: Global, dice: &mut Dice) -> Result<Vec<Line>, AllocError> {
    let length = length(dice);
    let wrong = dice.below(length.saturating_mul(3));
    let mut question = Vec::new(heap);
    for at in 0..length {
        question.push(if at == wrong {
            any_line(dice, at)
        } else {
            right_line(dice, at)
        })?;
    }
    Ok(question)
}
