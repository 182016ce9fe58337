// The vet's verdict on a table, under a measure.
ghost use Rattle.std.specs.Prelude.{◌≡◌, Ok, None};
ghost use Rattle.equivalence.specs.Vetted.{Vetted, YesExactly};
ghost use Rattle.manual.specs.Judging.{answer_of};

use super::words::Verdict;
use equivalence::{Classical, Fault};
use network::{Editable, Readable};
use session::settled::Settled;

pub(crate) fn judged<N: Readable, M: Classical>(
    network: &N,
    measure: &M,
    table: &[u8],
) -> Result<Verdict, Fault>
    ensures vetted { Vetted M.Measure.ops (N.meaning network.now) table.now (answer_of result) }
    ensures classical { let m = N.meaning network.now in
        YesExactly m table.now (answer_of result) (M.notion m) }
{
    measure.vet(network, table).map(Verdict)
}

// The verdict on the table that a session has settled on, which is yes.
pub(crate) fn confirmed<N: Editable, M: Classical>(
    settled: &Settled<N, M>,
    measure: &M,
) -> Result<Verdict, Fault>
    ensures { answer_of result ≡ Ok None }
{
    judged(settled.network(), measure, settled.table())
}
