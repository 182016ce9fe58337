// What the page asks of a settled network, and what the session answers.
ghost use Rattle.std.specs.Prelude.{◌≡◌, ℕ, map, Ok, IfOk};
ghost use Rattle.network.specs.Meaning.{Meaning};
ghost use Rattle.measure.specs.Kinds.{kinds};
ghost use Rattle.measure.specs.Bundles.{bundles};
ghost use Rattle.measure.specs.Tally.{tally};
ghost use Rattle.question.specs.Checks.{lines_check};
ghost use Rattle.question.specs.Lines.{claim};
ghost use Rattle.question.specs.Truth.{answer, each_node};
ghost use Rattle.session.specs.SettledSessions.{settled_state};
ghost use Rattle.manual.specs.Asking.{Answered, Means, TiedOneWay, TiedToAnEnd, TiedToTwoEnds};
ghost use Rattle.manual.specs.Asking.{ones, toward_claims};

use equivalence::Classical;
use measure::{Bundles, Kinds, Measure, Tally};
use network::{Editable, Readable};
use question::Line;
use session::settled::Settled;
use std::alloc::{AllocError, Global};

// Lines, and what they ask in words.
#[derive(Clone, Copy)]
pub(crate) struct Question {
    pub(crate) words: &'static str,
    pub(crate) lines: [Line; 4],
}

// A measure under which the page has a question.
pub(crate) trait Asks: Classical {
    ghost sought: { Meaning → ℕ → Type 0 };

    // It is true of just the nodes that are sought, and none of its lines is refused.
    fn question(&self) -> Question
        ensures means { Means Self.Measure.ops sought result.lines }
        ensures taken { lines_check 0 result.lines ≡ Ok tt };
}

// Who holds test t toward the nodes that do not hold test s.
fn toward_those_without(s: u8, t: u8) -> [Line; 4]
    ensures claims { map claim result ≡ toward_claims s t }
    ensures taken { lines_check 0 result ≡ Ok tt }
{
    [
        Line::colour(0),
        Line::tied(0, s),
        Line::not(1),
        Line::tied(2, t),
    ]
}

impl Asks for Kinds {
    ghost sought = { TiedToAnEnd };

    fn question(&self) -> Question
        ensures means { Means kinds TiedToAnEnd result.lines }
        ensures taken { lines_check 0 result.lines ≡ Ok tt }
    {
        Question {
            words: "is tied to a node that is tied to none",
            lines: toward_those_without(0, 0),
        }
    }
}

impl Asks for Bundles {
    ghost sought = { TiedOneWay };

    fn question(&self) -> Question
        ensures means { Means bundles TiedOneWay result.lines }
        ensures taken { lines_check 0 result.lines ≡ Ok tt }
    {
        Question {
            words: "is tied one way to a node with no mutual tie",
            lines: toward_those_without(9, 1),
        }
    }
}

impl Asks for Tally {
    ghost sought = { TiedToTwoEnds };

    fn question(&self) -> Question
        ensures means { Means tally TiedToTwoEnds result.lines }
        ensures taken { lines_check 0 result.lines ≡ Ok tt }
    {
        Question {
            words: "is tied to two nodes or more that are tied to none",
            lines: toward_those_without(0, 1),
        }
    }
}

// Whom a question is true of: roles and nodes, by number.
#[derive(Drop)]
pub(crate) struct Answer {
    pub(crate) roles: Vec<usize>,
    pub(crate) nodes: Vec<usize>,
}

// The columns at which a row is true, in order. Only memory can fail.
#[tactic(auto, using(session::proofs::Ranges::filter_in, session::proofs::Ranges::filter_out))]
fn ones(heap: Global, row: &[u8]) -> Result<Vec<usize>, AllocError>
    ensures { IfOk result (λ columns. columns.items ≡ ones row.now) }
{
    let mut ones = Vec::new(heap);
    for (column, &byte) in row.iter().enumerate() {
        if byte == 1 {
            ones.push(column)?;
        }
    }
    Ok(ones)
}

// Asks each role, and then each node. Only memory can fail.
pub(crate) fn answered<N: Editable, M: Measure>(
    heap: Global,
    settled: &Settled<N, M>,
    question: &[Line; 4],
) -> Result<Answer, AllocError>
    requires { lines_check 0 question.now ≡ Ok tt }
    ensures { let s = settled_state settled.now in
        let says = answer M.Measure.ops s.network s.colours each_node question.now in
        IfOk result (Answered s says) }
{
    // Four lines at 128 nodes. So no question of four lines that pass is refused.
    let mut area = [0; 512];
    let start = settled.ask(question, &mut area).unwrap();
    let roles = ones(heap, &area[start..start + settled.roles()])?;
    let start = settled.look(question, &mut area).unwrap();
    let nodes = ones(heap, &area[start..start + settled.network().nodes()])?;
    Ok(Answer { roles, nodes })
}
