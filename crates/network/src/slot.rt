// A slot: free, or a pair of nodes with its tie byte.
ghost use Rattle.std.specs.Prelude.{◌≡◌};
ghost use Rattle.network.specs.Slots.{byte_of, holds, is_free, keeping};

/// What a slot holds.
#[derive(Clone, Copy, PartialEq, Eq, Debug)]
pub enum Slot {
    /// No pair.
    Free,
    /// The tie byte from one node to another.
    Taken { from: u8, to: u8, byte: u8 },
}

impl Slot {
    // The slot of a pair with this byte, free where the byte is 0.
    pub(crate) fn keeping(i: u8, j: u8, b: u8) -> Slot
        ensures { result ≡ keeping i j b }
    {
        if b == 0 {
            return Slot::Free;
        }
        Slot::Taken {
            from: i,
            to: j,
            byte: b,
        }
    }

    pub(crate) fn is_free(self) -> bool
        ensures { result ≡ is_free self }
    {
        matches!(self, Slot::Free)
    }

    pub(crate) fn holds(self, i: usize, j: usize) -> bool
        ensures { result ≡ holds i j self }
    {
        match self {
            Slot::Free => false,
            Slot::Taken { from, to, .. } => usize::from(from) == i && usize::from(to) == j,
        }
    }

    // The byte that it holds, 0 where it is free.
    pub(crate) fn byte(self) -> u8
        ensures { result ≡ byte_of self }
    {
        match self {
            Slot::Free => 0,
            Slot::Taken { byte, .. } => byte,
        }
    }
}
