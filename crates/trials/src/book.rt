// A network with its colours, as the model keeps it: a plain byte for each pair of nodes.
use driving::call::{Edit, Reply};
use network::Fault as NetworkFault;
use session::Fault as SessionFault;
use std::alloc::{AllocError, Global};

/// No network of the trials has more nodes.
pub(crate) const MOST: usize = 9;

/// What a network means, and a colour for each node.
#[derive(Clone, Copy)]
pub(crate) struct Book {
    pub(crate) nodes: usize,
    ties: [[u8; MOST]; MOST],
    allowed: [[bool; MOST]; MOST],
    cap: usize,
    colours: [u8; MOST],
}

/// A tie, with its byte.
#[derive(Clone, Copy)]
pub(crate) struct Tie {
    pub(crate) from: usize,
    pub(crate) to: usize,
    pub(crate) byte: u8,
}

impl Book {
    /// No ties, and every colour 0. At most `MOST` nodes.
    pub(crate) fn new(nodes: usize, cap: usize) -> Book {
        Book {
            nodes: nodes.min(MOST),
            ties: [[0; MOST]; MOST],
            allowed: [[true; MOST]; MOST],
            cap,
            colours: [0; MOST],
        }
    }

    /// The byte from i to j, 0 where one of them is no node.
    pub(crate) fn tie(&self, i: usize, j: usize) -> u8 {
        self.ties
            .get(i)
            .and_then(|row| row.get(j))
            .copied()
            .unwrap_or(0)
    }

    /// The colour of each node.
    pub(crate) fn colours(&self) -> &[u8] {
        self.colours.get(..self.nodes).unwrap_or(&[])
    }

    /// Allows the pair or not.
    pub(crate) fn allow(&mut self, i: usize, j: usize, allowed: bool) {
        if let Some(place) = self.allowed.get_mut(i).and_then(|row| row.get_mut(j)) {
            *place = allowed;
        }
    }

    /// Sets the byte of the pair, and asks nothing.
    pub(crate) fn set(&mut self, i: usize, j: usize, byte: u8) {
        if let Some(place) = self.ties.get_mut(i).and_then(|row| row.get_mut(j)) {
            *place = byte;
        }
    }

    fn is_allowed(&self, i: usize, j: usize) -> bool {
        self.allowed
            .get(i)
            .and_then(|row| row.get(j))
            .copied()
            .unwrap_or(false)
    }

    /// How many pairs are tied.
    pub(crate) fn tied_pairs(&self) -> usize {
        self.ties
            .iter()
            .map(|row| row.iter().filter(|&&byte| byte > 0).count())
            .fold(0, |sum: usize, count| sum.saturating_add(count))
    }

    /// A put: refused by the first question that gets a no, and then nothing is altered.
    pub(crate) fn put(&mut self, i: usize, j: usize, byte: u8) -> Result<(), NetworkFault> {
        if i >= self.nodes || j >= self.nodes {
            return Err(NetworkFault::Node);
        }
        if !self.is_allowed(i, j) {
            return Err(NetworkFault::Pair);
        }
        if byte > 0 && self.tie(i, j) == 0 && self.tied_pairs() >= self.cap {
            return Err(NetworkFault::Full);
        }
        self.set(i, j, byte);
        Ok(())
    }

    /// Each pair that is tied, with its byte.
    pub(crate) fn ties(&self, heap: Global) -> Result<Vec<Tie>, AllocError> {
        let mut ties = Vec::new(heap);
        for from in 0..self.nodes {
            for to in 0..self.nodes {
                let byte = self.tie(from, to);
                if byte > 0 {
                    ties.push(Tie { from, to, byte })?;
                }
            }
        }
        Ok(ties)
    }

    /// A put or a colour, with what it replies.
    pub(crate) fn edit(&mut self, edit: Edit) -> Reply {
        match edit {
            Edit::Put(i, j, b) => Reply::Put(self.put(i, j, b)),
            Edit::Colour(i, c) => Reply::Colour(self.colour(i, c)),
        }
    }

    /// The network after these edits, of which some may be refused.
    pub(crate) fn after(self, edits: &[Edit]) -> Book {
        let mut book = self;
        for &edit in edits {
            let _ = book.edit(edit);
        }
        book
    }

    /// The network with a colour for each node.
    pub(crate) fn coloured(self, colours: &[u8]) -> Book {
        let mut book = self;
        for (x, &colour) in colours.iter().enumerate() {
            let _ = book.colour(x, colour);
        }
        book
    }

    /// A colour, refused where i is no node.
    pub(crate) fn colour(&mut self, i: usize, colour: u8) -> Result<(), SessionFault> {
        if i >= self.nodes {
            return Err(SessionFault::Node);
        }
        if let Some(place) = self.colours.get_mut(i) {
            *place = colour;
        }
        Ok(())
    }
}
