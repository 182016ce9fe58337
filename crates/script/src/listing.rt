// What GO prints of a settled session.
ghost use Rattle.std.specs.Prelude.{◌≡◌, ◌++◌, ◌<◌, ◌≤◌, length, OnOk, Ok};
ghost use Rattle.question.specs.Checks.{lines_check};
ghost use Rattle.driving.specs.Book.{book_in};
ghost use Rattle.session.specs.SettledSessions.{settled_state};
ghost use Rattle.script.specs.Listings.{heads, role_total, settled_lines, split_total, true_lines};

use super::lines::{print_node, print_totals, print_true};
use measure::Measure;
use network::{Editable, Readable};
use question::Line;
use session::settled::Settled;
use std::io;

// How many roles there are, and how many splits.
fn totals<N: Editable, M: Measure>(settled: &Settled<N, M>) -> (usize, usize)
    ensures roles { result.0 ≡ role_total M.Measure.ops (book_in (settled_state settled.now)) }
    ensures splits { result.1 ≡ split_total M.Measure.ops (book_in (settled_state settled.now)) }
{
    (settled.roles(), settled.splits())
}

// The head of the role of node x.
fn head_of<N: Editable, M: Measure>(settled: &Settled<N, M>, x: usize) -> usize
    requires { x < (settled_state settled.now).network.nodes }
    ensures { result ≡ heads M.Measure.ops (book_in (settled_state settled.now)) x }
{
    // No fault: x is a node, and its role is one.
    settled.role(settled.role_of(x).unwrap()).unwrap().head
}

// How many roles and splits, and each node with the head of its role.
#[tactic(auto, unfolding(crate::specs::Listings::settled_lines))]
pub(crate) fn print_roles<N: Editable, M: Measure>(
    settled: &Settled<N, M>,
    out: &mut Vec<u8>,
) -> io::Result<()>
    ensures { let book = book_in (settled_state settled.now) in
        OnOk result (out.new.items ≡ out.old.items ++ settled_lines M.Measure.ops book) }
{
    let (roles, splits) = totals(settled);
    print_totals(roles, splits, out)?;
    for x in 0..settled.network().nodes() {
        let head = head_of(settled, x);
        print_node(x, head, out)?;
    }
    Ok(())
}

// The nodes that the question is true of. The roles are asked.
#[tactic(auto, unfolding(crate::specs::Listings::true_lines))]
pub(crate) fn print_answer<N: Editable, M: Measure>(
    settled: &Settled<N, M>,
    question: &[Line],
    out: &mut Vec<u8>,
) -> io::Result<()>
    requires passes { lines_check 0 question.now ≡ Ok tt }
    requires few { length question.now ≤ 32 }
    ensures { let book = book_in (settled_state settled.now) in
        OnOk result (out.new.items ≡ out.old.items ++ true_lines M.Measure.ops book question.now) }
{
    if question.is_empty() {
        return Ok(());
    }
    // No fault: room for 32 lines at 128 nodes, and each line passes.
    let mut area = [0; 32 * 128];
    let start = settled.ask(question, &mut area).unwrap();
    for x in 0..settled.network().nodes() {
        let role = settled.role_of(x).unwrap();
        let answer = area[start + role];
        if answer == 1 {
            print_true(x, out)?;
        }
    }
    Ok(())
}
