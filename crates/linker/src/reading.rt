//! Reading a source's lists into tables, once.
ghost use Rattle.std.specs.Prelude.{◌≡◌, ◌+◌, ◌*◌, ◌<◌, ◌≤◌, length, take};
ghost use Rattle.matching.specs.Lists.{row};
ghost use Rattle.linker.specs.Tables.{Holds, ListRead};

use crate::cells::NONE;
use sources::Source;

// Reads the list of door x into the rows that begin at `base`.
fn read_list<S: Source>(source: &S, x: u8, base: usize, lists: &mut [u16], places: &mut [u16])
    requires lists_room { base + length (S.Source.lists source.now) ≤ length lists.old }
    requires places_room { base + length (S.Source.lists source.now) ≤ length places.old }
    ensures read { ListRead (row (S.Source.lists source.now) x) base (length (S.Source.lists source.now)) lists.new places.new }
    ensures lists_before { take base lists.new ≡ take base lists.old }
    ensures places_before { take base places.new ≡ take base places.old }
{
    // stays: places of lent memory are written where the source's answers say; over the slices it would be two loops
    for y in 0..source.count() {
        match source.place(x, y) {
            Some(at) => {
                lists[base + at as usize] = y as u16;
                places[base + y as usize] = at as u16;
            }
            None => {
                places[base + y as usize] = NONE;
            }
        }
    }
}

// Reads every list of the source: its doors, the place of every door on it, and its size.
pub(crate) fn read_lists<S: Source>(
    source: &S,
    lists: &mut [u16],
    places: &mut [u16],
    sizes: &mut [u16],
)
    requires lists_room { length (S.Source.lists source.now) * length (S.Source.lists source.now) ≡ length lists.old }
    requires places_room { length (S.Source.lists source.now) * length (S.Source.lists source.now) ≡ length places.old }
    requires sizes_room { length (S.Source.lists source.now) ≡ length sizes.old }
    ensures { Holds (S.Source.lists source.now) lists.new places.new sizes.new }
{
    let count = source.count();
    // stays: a door's number says where its row of two tables begins; zipped with the chunks of both it would be no plainer
    for x in 0..count {
        read_list(source, x, x as usize * count as usize, lists, places);
        sizes[x as usize] = source.length(x) as u16;
    }
}
