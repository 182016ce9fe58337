// What a settled session answers to a question.
ghost use Rattle.std.specs.Prelude.{◌≡◌, IfOk};
ghost use Rattle.question.specs.Truth.{RolesAnswer};
ghost use Rattle.session.specs.Questions.{AnswersNodes, AnswersRoles, after_ask};
ghost use Rattle.session.specs.Questions.{after_look, ask_answer, look_answer};
ghost use Rattle.session.specs.SettledSessions.{settled_state};

use super::Settled;
use measure::interface::Measure;
use network::interface::Editable;
use question::faults::Fault;
use question::line::Line;

impl<N: Editable, M: Measure> Settled<N, M> {
    /// Asks each node, on the whole network, as an open session does.
    pub fn look(&self, question: &[Line], area: &mut [u8]) -> Result<usize, Fault>
        ensures start { result ≡ look_answer (settled_state self.now) question.now area.old }
        ensures area { let s = settled_state self.now in
            area.new ≡ after_look M.Measure.ops s question.now area.old }
        ensures agrees { let s = settled_state self.now in
            IfOk result (λ start. AnswersNodes M.Measure.ops s question.now start area.new) }
    {
        self.session.look(question, area)
    }

    /// Asks each role, with its head in place of its nodes: a row for each line, with a byte for
    /// each role. Tells where the last row starts.
    pub fn ask(&self, question: &[Line], area: &mut [u8]) -> Result<usize, Fault>
        ensures start { result ≡ ask_answer (settled_state self.now) question.now area.old }
        ensures area { let s = settled_state self.now in
            area.new ≡ after_ask M.Measure.ops s question.now area.old }
        ensures roles { RolesAnswer M.Measure.ops }
        ensures agrees { let s = settled_state self.now in
            IfOk result (λ start. AnswersRoles M.Measure.ops s question.now start area.new) }
    {
        self.session.answer_by_roles(question, area)
    }
}
