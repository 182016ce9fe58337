// A question that is added to, line by line.
ghost use Rattle.std.specs.Prelude.{◌≡◌, ◌≤◌, Ok, [], length};
ghost use Rattle.question.specs.Checks.{lines_check};

use arrayvec::ArrayVec;
use question::checking::check_line;
use question::{Fault, Line};

// Up to 32 lines, each of which passes.
#[derive(Drop)]
pub(crate) struct Draft {
    lines: ArrayVec<Line, 32>,
    ghost passes: { lines_check 0 lines.items ≡ Ok tt },
}

impl Draft {
    ghost use Rattle.script.specs.Drafts.{add_answer, lines_after, lines_of};

    pub(crate) fn new() -> Draft
        ensures { lines_of result ≡ [] }
    {
        Draft {
            lines: ArrayVec::new(),
        }
    }

    pub(crate) fn lines(&self) -> &[Line]
        ensures lines { result.now ≡ lines_of self.now }
        ensures passes { lines_check 0 result.now ≡ Ok tt }
        ensures few { length result.now ≤ 32 }
    {
        &self.lines
    }

    pub(crate) fn clear(&mut self)
        ensures { lines_of self.new ≡ [] }
    {
        self.lines.clear();
    }

    // One line more, or the first no of: fewer than 32 lines before it (6), a known code (7), only
    // earlier lines (8).
    pub(crate) fn add(&mut self, line: Line) -> Result<(), Fault>
        ensures answer { result ≡ add_answer (lines_of self.old) line }
        ensures lines { lines_of self.new ≡ lines_after (lines_of self.old) line }
    {
        if self.lines.is_full() {
            return Err(Fault::Lines);
        }
        check_line(self.lines.len(), line)?;
        self.lines.push(line);
        Ok(())
    }
}
