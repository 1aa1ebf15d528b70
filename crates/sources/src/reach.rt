//! A shorter reach over any source.
ghost use Rattle.matching.proofs.Reaching.{reached_lawful};
ghost use Rattle.sources.specs.Layers.{reached};

use crate::source::Source;

/// The source below with only the first `reach` doors of each list.
#[derive(Drop)]
pub struct Reach<S> {
    /// The source below.
    pub below: S,
    /// The longest that a list is.
    pub reach: u8,
}

impl<S: Source> Source for Reach<S> {
    ghost lists = { λ s. reached s.reach (S.Source.lists s.below) };

    ghost sound = { λ s. reached_lawful s.reach (S.Source.lists s.below) (S.Source.sound s.below) };

    fn count(&self) -> u8 {
        self.below.count()
    }

    fn length(&self, door: u8) -> u8 {
        self.below.length(door).min(self.reach)
    }

    fn place(&self, door: u8, other: u8) -> Option<u8> {
        self.below.place(door, other).filter(|at| *at < self.reach)
    }
}
