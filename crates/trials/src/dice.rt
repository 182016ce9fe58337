// Random numbers from a seed: the same in every run.
use rand_core::Rng;
use rand_pcg::Pcg32;

#[derive(Drop)]
pub(crate) struct Dice {
    generator: Pcg32,
}

impl Dice {
    pub(crate) fn new(seed: u64) -> Dice {
        Dice {
            generator: Pcg32::new(seed, 54),
        }
    }

    /// A number below the bound, and 0 where the bound is 0.
    pub(crate) fn below(&mut self, bound: usize) -> usize {
        let word = self.generator.next_u32() as usize;
        word.checked_rem(bound).unwrap_or(0)
    }

    /// Whether it comes up once in so many times.
    pub(crate) fn is_one_in(&mut self, times: usize) -> bool {
        self.below(times) == 0
    }

    /// A number below the bound, or rarely one that is not.
    pub(crate) fn argument(&mut self, bound: usize) -> usize {
        if self.is_one_in(200) {
            return usize::MAX;
        }
        if self.is_one_in(10) {
            return bound.saturating_add(self.below(3));
        }
        self.below(bound)
    }

    /// One of the bytes.
    pub(crate) fn byte(&mut self, bytes: &[u8]) -> u8 {
        let at = self.below(bytes.len());
        bytes.get(at).copied().unwrap_or(0)
    }
}
