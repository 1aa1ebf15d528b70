//! Two-way linking: theorems about proposals, rotations and the outcome.
ghost use Rattle.std.specs.Prelude.{◌≡◌, ℕ, true, List};
ghost use Rattle.matching.specs.Lists.{lawful};
ghost use Rattle.matching.specs.TwoWay.{ProposalsAgree, SomeStays, TwoWayDecides};

/// Proposals finish, whoever proposes when, in one table, and every stable linking is inside it.
pub fn proposals_agree()
    ensures { (ls : List (List ℕ)) → lawful ls ≡ true → ProposalsAgree ls }
{}

/// If some linking is stable, one is that is inside the table which eliminations lead to.
pub fn some_stable_linking_stays()
    ensures { (ls : List (List ℕ)) → lawful ls ≡ true → SomeStays ls }
{}

/// Proposals and eliminations of rotations come to one outcome for lawful lists: a stable linking, or nothing where every linking
/// over the lists has a blocking pair.
pub fn two_way_decides()
    ensures { (ls : List (List ℕ)) → lawful ls ≡ true → TwoWayDecides ls }
{}
