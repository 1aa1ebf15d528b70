//! What every source of preference lists promises.
ghost use Rattle.std.specs.Prelude.{◌≡◌, ℕ, true, List, length};
ghost use Rattle.matching.specs.Lists.{lawful, place, row};

/// A source means a list for each door, at most 96 doors, and lawful: different doors of the level, never the owner.
pub trait Source {
    ghost lists: { Self → List (List ℕ) };

    /// The number of doors.
    fn count(&self) -> u8
        ensures { result ≡ length (lists self.now) };

    /// The length of a door's list; 0 for a number past the last door.
    fn length(&self, door: u8) -> u8
        ensures { result ≡ length (row (lists self.now) door) };

    /// The place of `other` on the list of `door`, counted from 0; nothing where it is not listed.
    fn place(&self, door: u8, other: u8) -> Option<u8>
        ensures { result ≡ place (row (lists self.now) door) other };

    ghost sound: { (s : Self) → lawful (lists s) ≡ true };
}
