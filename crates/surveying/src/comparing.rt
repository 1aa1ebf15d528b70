//! Two sources compared, and one counted.
ghost use Rattle.std.specs.Prelude.{◌≡◌, ◌↔◌, length, IsTrue, sum_by};
ghost use Rattle.codec.specs.Blocks.{baking};
ghost use Rattle.matching.specs.Lists.{row};

use sources::Source;

// Whether two sources have the same list for a door.
#[tactic(auto, using(crate::proofs::Places::same_by_places, matching::proofs::Rows::lawful_facts))]
fn same_list<A: Source, B: Source>(one: &A, other: &B, door: u8) -> bool
    ensures { IsTrue result ↔ (row (A.Source.lists one.now) door ≡ row (B.Source.lists other.now) door) }
{
    if one.length(door) != other.length(door) {
        return false;
    }
    for listed in 0..one.count() {
        if one.place(door, listed) != other.place(door, listed) {
            return false;
        }
    }
    true
}

// Whether two sources have the same lists, as far as their answers go.
pub(crate) fn same_lists<A: Source, B: Source>(one: &A, other: &B) -> bool
    ensures { IsTrue result ↔ (A.Source.lists one.now ≡ B.Source.lists other.now) }
{
    if one.count() != other.count() {
        return false;
    }
    for door in 0..one.count() {
        if !same_list(one, other, door) {
            return false;
        }
    }
    true
}

// How many doors are listed in all.
#[tactic(auto, using(std::proofs::lemmas::List::Sums::sum_by_more, sources::proofs::Asked::row_short))]
pub(crate) fn listed<S: Source>(source: &S) -> u32
    ensures { result ≡ sum_by length (S.Source.lists source.now) }
{
    let mut all = 0;
    for door in 0..source.count() {
        all += u32::from(source.length(door));
    }
    all
}

// Whether a file is accepted and has the lists of a source.
pub(crate) fn reads_back<S: Source>(source: &S, file: &[u8]) -> bool
    ensures { IsTrue result ↔ (file.now ≡ baking (S.Source.lists source.now)) }
{
    codec::read(file).is_ok_and(|table| same_lists(source, &table))
}
