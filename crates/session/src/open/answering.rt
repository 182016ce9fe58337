// What a question is true of, row by row.
ghost use Rattle.std.specs.Prelude.{◌≡◌, ◌+◌, ◌*◌, ◌<◌, ◌≤◌, length, ◌++◌, drop, filter};
ghost use Rattle.std.specs.Prelude.{flat_map, Ok};
ghost use Rattle.std.specs.List.{range_with_len};
ghost use Rattle.question.specs.Checks.{answer_start, lines_check};
ghost use Rattle.question.specs.Lines.{claim};
ghost use Rattle.question.specs.Truth.{line_row, rows};
ghost use Rattle.question.specs.Areas.{area_after, row_bytes};
ghost use Rattle.question.specs.declared.line.Claim.{Claim};
ghost use Rattle.session.specs.Marks.{marked, Written};
ghost use Rattle.session.specs.OpenSessions.{state_of};

use super::super::columns::Columns;
use super::Open;
use arrayvec::ArrayVec;
use equivalence::totals::total_over;
use measure::interface::Measure;
use network::MOST_NODES;
use network::interface::Editable;
use question::checking::check;
use question::faults::Fault;
use question::line::{Claim, Line};

// Whether line k is true at column p, by rows of this width.
fn is_true(rows: &[u8], width: usize, k: usize, p: usize) -> bool
    requires { k * width + p < length rows.now }
    ensures { result ≡ marked width rows.now k p }
{
    rows[k * width + p] == 1
}

impl<N: Editable, M: Measure> Open<N, M> {
    // The nodes that line k is true of, in order.
    #[tactic(auto, using(crate::proofs::Ranges::filter_in, crate::proofs::Ranges::filter_out))]
    fn true_nodes<C: Columns>(&self, columns: &C, rows: &[u8], k: usize) -> ArrayVec<u8, MOST_NODES>
        requires fits { C.nodes columns.now ≡ (state_of self.now).network.nodes }
        requires written { k * C.width columns.now + C.width columns.now ≤ length rows.now }
        ensures { let truth = marked (C.width columns.now) rows.now in
            result.items ≡ filter (λ y. truth k ((C.columns columns.now).column y))
            (range_with_len 0 (state_of self.now).network.nodes) }
    {
        let width = columns.width();
        let mut nodes = ArrayVec::new();
        for y in 0..self.table.nodes() {
            if is_true(rows, width, k, columns.column(y)) {
                nodes.push(y as u8);
            }
        }
        nodes
    }

    // Writes the row of a line, by the rows before it: 1 where the line is true, and else 0.
    #[tactic(auto, using(crate::proofs::Rows::row_claimed, crate::proofs::Rows::listed_below))]
    fn write_row<C: Columns>(&self, columns: &C, line: Line, rows: &[u8], row: &mut [u8])
        requires fits { C.nodes columns.now ≡ (state_of self.now).network.nodes }
        requires width { length row.old ≡ C.width columns.now }
        requires written { (c : Claim) → claim line ≡ Some c
            → Written (C.width columns.now) (length rows.now) c }
        ensures { let s = state_of self.now in
            let truth = marked (C.width columns.now) rows.now in
            row.new ≡ row_bytes (C.width columns.now)
            (line_row M.Measure.ops s.network s.colours (C.columns columns.now) truth line) }
    {
        let width = columns.width();
        match line.claim() {
            Some(Claim::Colour(c)) => {
                for (p, byte) in row.iter_mut().enumerate() {
                    *byte = u8::from(self.table.colour_of(columns.node(p)) == c);
                }
            }
            Some(Claim::Not(k)) => {
                for (p, byte) in row.iter_mut().enumerate() {
                    *byte = u8::from(!is_true(rows, width, k, p));
                }
            }
            Some(Claim::And(k, l)) => {
                for (p, byte) in row.iter_mut().enumerate() {
                    *byte = u8::from(is_true(rows, width, k, p) && is_true(rows, width, l, p));
                }
            }
            Some(Claim::Tied(k, t)) => {
                let toward = self.true_nodes(columns, rows, k);
                for (p, byte) in row.iter_mut().enumerate() {
                    let node = columns.node(p);
                    let total = total_over(&self.network, &self.measure, node, &toward);
                    *byte = u8::from(self.measure.holds(total, t));
                }
            }
            // Of an unknown code.
            None => row.fill(0),
        }
    }

    // Writes the rows of a question that passes its check, one after another.
    fn write_rows<C: Columns>(&self, columns: &C, question: &[Line], area: &mut [u8])
        requires fits { C.nodes columns.now ≡ (state_of self.now).network.nodes }
        requires lines { lines_check 0 question.now ≡ Ok tt }
        requires few { length question.now ≤ 32 }
        requires room { length question.now * C.width columns.now ≤ length area.old }
        ensures { let s = state_of self.now in
            let at = C.columns columns.now in
            area.new ≡ flat_map (row_bytes (C.width columns.now))
            (rows M.Measure.ops s.network s.colours at question.now)
            ++ drop (length question.now * C.width columns.now) area.old }
    {
        let width = columns.width();
        for (k, &line) in question.iter().enumerate() {
            let (rows, rest) = area.split_at_mut(k * width);
            self.write_row(columns, line, rows, &mut rest[..width]);
        }
    }

    // Answers a question in these columns, or refuses it.
    pub(crate) fn answer<C: Columns>(
        &self,
        columns: &C,
        question: &[Line],
        area: &mut [u8],
    ) -> Result<usize, Fault>
        requires { C.nodes columns.now ≡ (state_of self.now).network.nodes }
        ensures start { result ≡ answer_start question.now (C.width columns.now) (length area.old) }
        ensures area { let s = state_of self.now in
            let at = C.columns columns.now in
            area.new ≡ area_after result (C.width columns.now)
            (rows M.Measure.ops s.network s.colours at question.now) area.old }
    {
        let start = check(question, columns.width(), area.len())?;
        self.write_rows(columns, question, area);
        Ok(start)
    }
}
