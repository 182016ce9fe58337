// An open session: ties and colours change, and roles are split step by step.
ghost use Rattle.std.specs.Prelude.{◌≡◌};
ghost use Rattle.network.specs.Put.{put_answer, put_after};
ghost use Rattle.session.specs.States.{ClassesLaw, IsSound, state_with};
ghost use Rattle.session.specs.Sessions.{Begun, Edited, colour_answer, colours_after};

use super::faults::Fault;
use super::table::Table;
use measure::interface::Measure;
use network::interface::Editable;

// What a session tells.
mod telling;
// The search for a split.
mod stepping;
// What a question is true of, row by row.
mod answering;
// Look, and ask for a settled session.
mod looking;

/// A session that takes put, colour and step. Either of put and colour brings the table back to the
/// starting classes where it is accepted.
#[derive(Debug, Drop)]
pub struct Open<N: Editable, M: Measure> {
    network: N,
    measure: M,
    table: Table,
    ghost sound: { IsSound M.Measure.ops (state_with (N.Readable.meaning network) table) },
}

impl<N: Editable, M: Measure> Open<N, M> {
    ghost use Rattle.session.specs.OpenSessions.{state_of, parts_of};

    /// Every colour is 0, and the table is at the starting classes.
    #[tactic(auto, using(crate::proofs::Keeping::sound_begun, crate::proofs::Keeping::begun))]
    pub fn new(network: N, measure: M) -> Self
        ensures begun { Begun (N.Readable.meaning network) (λ _. 0) (state_of result) }
        ensures parts { parts_of result ≡ (network, measure) }
        ensures classes { ClassesLaw }
    {
        let table = Table::new(&network);
        Open {
            network,
            measure,
            table,
        }
    }

    /// The tie byte from i to j becomes b, by the network's own put. Accepted, the table is back at
    /// the starting classes, also where nothing is altered. Refused, all is as it was.
    #[tactic(auto, using(crate::proofs::Keeping::sound_begun, crate::proofs::Keeping::begun))]
    pub fn put(&mut self, i: usize, j: usize, b: u8) -> Result<(), network::faults::Fault>
        ensures answer { result ≡ put_answer (state_of self.old).network i j b }
        ensures edited { let s = state_of self.old in
            Edited result (put_after s.network i j b) s.colours s (state_of self.new) }
        ensures measure { (parts_of self.new).1 ≡ (parts_of self.old).1 }
    {
        self.network.put(i, j, b)?;
        self.table.restart(&self.network);
        Ok(())
    }

    /// Node i becomes of colour c. Accepted, the table is back at the starting classes, also where
    /// nothing is altered. Refused, all is as it was.
    #[tactic(auto, using(crate::proofs::Keeping::sound_begun, crate::proofs::Keeping::begun, crate::proofs::Keeping::coloured))]
    pub fn colour(&mut self, i: usize, c: u8) -> Result<(), Fault>
        ensures answer { result ≡ colour_answer (state_of self.old).network.nodes i }
        ensures edited { let s = state_of self.old in
            let colours = colours_after s.network.nodes s.colours i c in
            Edited result s.network colours s (state_of self.new) }
        ensures parts { parts_of self.new ≡ parts_of self.old }
    {
        if i >= self.table.nodes() {
            return Err(Fault::Node);
        }
        self.table.colour(&self.network, i, c);
        Ok(())
    }

    /// Ends the session.
    pub fn into_parts(self) -> (N, M)
        ensures { result ≡ parts_of self }
    {
        (self.network, self.measure)
    }
}
