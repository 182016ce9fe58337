// The list: a slot for each tied pair, in memory that is handed to its making.
ghost use Rattle.std.specs.Prelude.{◌≡◌, ◌≤◌, length, position, replicate, true};
ghost use Rattle.std.specs.Prelude.{vec_items, vec_len};
ghost use Rattle.network.specs.Meaning.{most_nodes};
ghost use Rattle.network.specs.Put.{put_after, put_answer};
ghost use Rattle.network.specs.PutsLaw.{PutsLaw};
ghost use Rattle.network.specs.Slots.{holds, is_free, place_for, tidy};
ghost use Rattle.network.specs.Listed.{in_use, list_check, list_made, list_memory, put_in};
ghost use Rattle.network.specs.Listed.{ListCheckLaw};
ghost use Rattle.network.specs.Listed.{slots_answer, OneEach, OthersStayLaw};

use super::faults::Fault;
use super::interface::{Editable, MOST_NODES, Readable};
use super::slot::Slot;

/// A network of n nodes that allows every pair. Each tied pair has a slot, and no other pair has
/// one, so that as many pairs may be tied at a time as there are slots.
#[derive(Drop, Debug)]
pub struct SlotList {
    n: usize,
    // Its slots, in no order. Without nodes it has none, and this is what its making was handed.
    memory: Vec<Slot>,
    ghost few: { n ≤ most_nodes },
    ghost tidy: { tidy n (in_use n (vec_items memory)) ≡ true },
}

// Every slot free.
fn free_all(slots: &mut [Slot])
    ensures { slots.new ≡ replicate (length slots.old) Slot.Free }
{
    slots.fill(Slot::Free);
}

fn freed(memory: Vec<Slot>) -> Vec<Slot>
    ensures { result.items ≡ replicate (vec_len memory) Slot.Free }
{
    let mut slots = memory;
    free_all(&mut slots);
    slots
}

impl SlotList {
    ghost use Rattle.network.specs.SlotLists.{memory_of, slots_of, ties_of};

    /// Whether n nodes can be made over these slots, of which there may be 1 to 1,024.
    #[tactic(auto, using(crate::proofs::Makings::list_check_law))]
    pub fn check(n: usize, memory: &[Slot]) -> Result<(), Fault>
        ensures value { result ≡ list_check n (length memory.now) }
        ensures law { ListCheckLaw }
    {
        if n == 0 || n > MOST_NODES {
            return Err(Fault::Size);
        }
        if memory.is_empty() || memory.len() > 1024 {
            return Err(Fault::Memory);
        }
        Ok(())
    }

    /// The list of n nodes without ties, every slot free. Where `check` refuses, the network
    /// without nodes, and nothing is written, whatever the slots hold.
    #[tactic(auto, using(crate::proofs::SlotPuts::made_tidy, crate::proofs::SlotPuts::made_untied))]
    pub fn new(n: usize, memory: Vec<Slot>) -> SlotList
        ensures meaning { ties_of result ≡ list_made n (vec_len memory) }
        ensures memory { memory_of result ≡ list_memory n memory.items }
    {
        if SlotList::check(n, &memory).is_err() {
            return SlotList { n: 0, memory };
        }
        SlotList {
            n,
            memory: freed(memory),
        }
    }

    /// Gives the memory back: the slots with what they hold, or, of the network without nodes, what
    /// its making was handed.
    pub fn into_memory(self) -> Vec<Slot>
        ensures { result.items ≡ memory_of self }
    {
        let SlotList { memory, .. } = self;
        memory
    }

    // The place of the slot that holds the pair.
    fn find(&self, i: usize, j: usize) -> Option<usize>
        ensures { result ≡ position (holds i j) (memory_of self.now) }
    {
        self.memory.iter().position(|slot| slot.holds(i, j))
    }

    // The place of the first slot that is free.
    fn find_free(&self) -> Option<usize>
        ensures { result ≡ position is_free (memory_of self.now) }
    {
        self.memory.iter().position(|slot| slot.is_free())
    }

    // The place in which the pair is kept, if there is one for it.
    fn place_for(&self, i: usize, j: usize) -> Option<usize>
        ensures { result ≡ place_for (memory_of self.now) i j }
    {
        self.find(i, j).or_else(|| self.find_free())
    }
}

impl Readable for SlotList {
    ghost use Rattle.network.specs.SlotLists.{ties_of};

    ghost meaning = { ties_of };

    fn nodes(&self) -> usize {
        self.n
    }

    // One pass over the slots.
    fn tie(&self, i: usize, j: usize) -> u8 {
        if i >= self.n || j >= self.n {
            return 0;
        }
        match self.find(i, j) {
            Some(k) => self.memory[k].byte(),
            None => 0,
        }
    }
}

impl Editable for SlotList {
    ghost use Rattle.network.specs.SlotLists.{memory_of, slots_of, ties_of};

    // At most two passes over the slots. One slot at most differs.
    #[tactic(auto, using(crate::proofs::SlotPuts::one_each, crate::proofs::SlotPuts::put_laws))]
    fn put(&mut self, i: usize, j: usize, b: u8) -> Result<(), Fault>
        ensures answer { result ≡ put_answer (ties_of self.old) i j b }
        ensures after { ties_of self.new ≡ put_after (ties_of self.old) i j b }
        ensures memory { let n = (ties_of self.old).nodes in
            memory_of self.new ≡ put_in n (memory_of self.old) i j b }
        ensures slots { let n = (ties_of self.old).nodes in
            result ≡ slots_answer n (slots_of self.old) i j b }
        ensures one_each { OneEach (ties_of self.new).nodes (slots_of self.new) }
        ensures law { PutsLaw }
        ensures others { OthersStayLaw }
    {
        if i >= self.n || j >= self.n {
            return Err(Fault::Node);
        }
        match self.place_for(i, j) {
            Some(k) => self.memory[k] = Slot::keeping(i as u8, j as u8, b),
            None if b > 0 => return Err(Fault::Full),
            None => {}
        }
        Ok(())
    }
}
