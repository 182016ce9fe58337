// A network whose kind the script chooses.
ghost use Rattle.std.specs.Prelude.{◌≡◌, IfOk, vec_len};
ghost use Rattle.network.specs.Put.{put_after, put_answer};
ghost use Rattle.script.specs.Networks.{enough, list_named, matrix_named, meant, meant_in};
ghost use Rattle.script.specs.Networks.{two_mode_named};

use network::{Editable, Fault, MOST_NODES, Matrix, Readable, Slot, SlotList, TwoMode};
use std::alloc::{AllocError, Global};

#[derive(Drop)]
pub(crate) enum AnyNetwork {
    OneMode(Matrix),
    TwoMode(TwoMode),
    Slots(SlotList),
}

// Bytes enough for any network that keeps bytes.
fn memory(heap: Global) -> Result<Vec<u8>, AllocError>
    ensures { IfOk result (λ bytes. vec_len bytes ≡ enough) }
{
    vec![in heap; 0; MOST_NODES * MOST_NODES]
}

impl AnyNetwork {
    // The matrix of n nodes without ties, or the refusal of its making. Only memory can fail.
    pub(crate) fn matrix(n: usize, heap: Global) -> Result<Result<AnyNetwork, Fault>, AllocError>
        ensures { IfOk result (λ network. meant_in network ≡ matrix_named n enough) }
    {
        // Asked without memory first, so that what is refused takes none.
        if let Err(Fault::Size) = Matrix::check(n, &[]) {
            return Ok(Err(Fault::Size));
        }
        Ok(Ok(AnyNetwork::OneMode(Matrix::new(n, memory(heap)?))))
    }

    // Sides of a and b nodes without ties, or the refusal of their making. Only memory can fail.
    pub(crate) fn two_mode(
        a: usize,
        b: usize,
        heap: Global,
    ) -> Result<Result<AnyNetwork, Fault>, AllocError>
        ensures { IfOk result (λ network. meant_in network ≡ two_mode_named a b enough) }
    {
        if let Err(Fault::Size) = TwoMode::check(a, b, &[]) {
            return Ok(Err(Fault::Size));
        }
        Ok(Ok(AnyNetwork::TwoMode(TwoMode::new(a, b, memory(heap)?))))
    }

    // The list of n nodes and s slots without ties, or the refusal of its making. Only memory can
    // fail.
    pub(crate) fn list(
        n: usize,
        s: usize,
        heap: Global,
    ) -> Result<Result<AnyNetwork, Fault>, AllocError>
        ensures { IfOk result (λ network. meant_in network ≡ list_named n s) }
    {
        // One slot too many is refused as any more are, and takes less memory.
        let memory = vec![in heap; Slot::Free; s.min(1025)]?;
        match SlotList::check(n, &memory) {
            Ok(()) => Ok(Ok(AnyNetwork::Slots(SlotList::new(n, memory)))),
            Err(fault) => Ok(Err(fault)),
        }
    }
}

impl Readable for AnyNetwork {
    ghost meaning = { meant };

    fn nodes(&self) -> usize {
        match self {
            AnyNetwork::OneMode(network) => network.nodes(),
            AnyNetwork::TwoMode(network) => network.nodes(),
            AnyNetwork::Slots(network) => network.nodes(),
        }
    }

    fn tie(&self, i: usize, j: usize) -> u8 {
        match self {
            AnyNetwork::OneMode(network) => network.tie(i, j),
            AnyNetwork::TwoMode(network) => network.tie(i, j),
            AnyNetwork::Slots(network) => network.tie(i, j),
        }
    }
}

impl Editable for AnyNetwork {
    fn put(&mut self, i: usize, j: usize, b: u8) -> Result<(), Fault>
        ensures answer { result ≡ put_answer (meant self.old) i j b }
        ensures after { meant self.new ≡ put_after (meant self.old) i j b }
    {
        match self {
            AnyNetwork::OneMode(network) => network.put(i, j, b),
            AnyNetwork::TwoMode(network) => network.put(i, j, b),
            AnyNetwork::Slots(network) => network.put(i, j, b),
        }
    }
}
