//! One-way linking by proposals: the theorems.
ghost use Rattle.std.specs.Prelude.{◌≡◌, ℕ, true, ◌⊎◌, List};
ghost use Rattle.matching.specs.Lists.{lawful};
ghost use Rattle.matching.specs.Linkings.{accept, counts_one_way, Linking, Stable, BlockingPair};
ghost use Rattle.matching.specs.Proposals.{BestForExits, EndsIn, OneWayResult};

/// Over any lawful lists and any sides proposals come to an end.
pub fn proposals_end()
    ensures { (ls : List (List ℕ)) (sides : List ℕ) → lawful ls ≡ true → (k : ℕ) × (m : List ℕ) × EndsIn ls sides k m }
{}

/// Whoever proposes when, the linking is the same, and so is the number of proposals.
pub fn order_does_not_matter()
    ensures { (ls : List (List ℕ)) (sides m m' : List ℕ) (k k' : ℕ) → lawful ls ≡ true → EndsIn ls sides k m → EndsIn ls sides k' m' → (m ≡ m') × (k ≡ k') }
{}

/// A linking in which proposals end is stable and best for the exits, and the proposals are as many as it tells.
pub fn proposals_end_well()
    ensures { (ls : List (List ℕ)) (sides m : List ℕ) (k : ℕ) → lawful ls ≡ true → EndsIn ls sides k m → OneWayResult ls sides m k }
{}

/// Only one stable linking is best for the exits.
pub fn one_is_best()
    ensures { (ls : List (List ℕ)) (sides m m' : List ℕ) → lawful ls ≡ true → Linking ls (counts_one_way ls sides) m → Stable ls (counts_one_way ls sides) m → BestForExits ls sides m → Linking ls (counts_one_way ls sides) m' → Stable ls (counts_one_way ls sides) m' → BestForExits ls sides m' → m ≡ m' }
{}

/// A linking, of all doors or one way, is stable or has a blocking pair.
pub fn stable_or_blocking()
    ensures any { (ls : List (List ℕ)) (m : List ℕ) → lawful ls ≡ true → Linking ls (accept ls) m → Stable ls (accept ls) m ⊎ ((x : ℕ) × (y : ℕ) × BlockingPair ls (accept ls) m x y) }
    ensures one { (ls : List (List ℕ)) (sides m : List ℕ) → lawful ls ≡ true → Linking ls (counts_one_way ls sides) m → Stable ls (counts_one_way ls sides) m ⊎ ((x : ℕ) × (y : ℕ) × BlockingPair ls (counts_one_way ls sides) m x y) }
{}
