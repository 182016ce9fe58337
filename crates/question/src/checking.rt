// Whether a question can be answered.
ghost use Rattle.std.specs.Prelude.{◌≡◌};
ghost use Rattle.question.specs.Checks.{line_check, lines_check, answer_start, ChecksLaw};

use super::faults::Fault;
use super::line::Line;

/// Whether line `at` of a question can be answered: of a known code (7), and then naming only lines
/// before it (8).
pub fn check_line(at: usize, line: Line) -> Result<(), Fault>
    ensures { result ≡ line_check at line }
{
    match line.claim() {
        None => Err(Fault::Code(at)),
        Some(claim) if claim.is_after(at) => Ok(()),
        Some(_) => Err(Fault::Later(at)),
    }
}

fn check_lines(question: &[Line]) -> Result<(), Fault>
    ensures { result ≡ lines_check 0 question.now }
{
    for (at, &line) in question.iter().enumerate() {
        check_line(at, line)?;
    }
    Ok(())
}

/// Where the last row starts, in an area of `size` bytes with a row of `width` bytes for each line.
/// The first no is told: 1 to 32 lines (6), line by line (7, 8), the area (9).
#[tactic(auto, using(crate::proofs::ChecksLaw::checks_law))]
pub fn check(question: &[Line], width: usize, size: usize) -> Result<usize, Fault>
    ensures answer { result ≡ answer_start question.now width size }
    ensures law { ChecksLaw }
{
    if question.is_empty() || question.len() > 32 {
        return Err(Fault::Lines);
    }
    check_lines(question)?;
    match question.len().checked_mul(width) {
        Some(needed) if needed <= size => Ok(needed - width),
        _ => Err(Fault::Area),
    }
}
