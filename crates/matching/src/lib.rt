//! Preference lists and linkings: definitions, and the theorems about them.

#![tactic(auto)]

pub mod one_way;
pub mod rotations;

ghost use Rattle.std.specs.Prelude.{◌≡◌, ℕ, ◌<◌, true, List, length};
ghost use Rattle.matching.specs.Lists.{lawful, Lawful, lawful_list};

/// The test `lawful` says exactly that every list holds different doors of the level, never its owner.
pub fn lawful_says_so()
    ensures { ((ls : List (List ℕ)) → lawful ls ≡ true → Lawful ls) × ((ls : List (List ℕ)) → Lawful ls → lawful ls ≡ true) }
{}

/// A lawful list of one of n doors has fewer than n places.
pub fn lawful_lists_are_short()
    ensures { (n d : ℕ) (l : List ℕ) → lawful_list n d l ≡ true → d < n → length l < n }
{}
