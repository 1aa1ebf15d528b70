//! The tables that hold a source's lists, as the linkers read them.
ghost use Rattle.std.specs.Prelude.{◌≡◌, ◌+◌, ◌*◌, ◌≤◌, length, slice_index};
ghost use Rattle.linker.specs.Tables.{Sound};

use crate::cells::cell;
use crate::reading::read_lists;
use sources::Source;

// The doors of each list, the place of each door on it, and its size, for `count` doors.
// stays: a rule of the project: parts of one lent slice of numbers
#[derive(Clone, Copy)]
pub(crate) struct Tables<'a> {
    pub(crate) count: u16,
    pub(crate) lists: &'a [u16],
    pub(crate) places: &'a [u16],
    pub(crate) sizes: &'a [u16],
    ghost sound: { Sound count lists.now places.now sizes.now },
    ghost sized: { length sizes.now ≡ count },
}

// The tables that were read, and the lent memory behind them.
// stays: no plainer: `link_tables` and `Work::in_memory` ask for the room again, since they are handed the two parts, of which each linker takes its own
#[derive(Drop)]
pub(crate) struct Read<'a> {
    pub(crate) tables: Tables<'a>,
    pub(crate) rest: &'a mut [u16],
    ghost room: { 6 * tables.count ≤ length rest.now },
}

impl<'a> Tables<'a> {
    ghost use Rattle.linker.specs.Meanings.{lists_in};

    // Reads a source's lists into lent memory.
    pub(crate) fn read<S: Source>(source: &S, memory: &'a mut [u16]) -> Read<'a>
        requires { 3 * length (S.Source.lists source.now) * length (S.Source.lists source.now) + 8 * length (S.Source.lists source.now) ≤ length memory.old }
        ensures lists { lists_in result.tables ≡ S.Source.lists source.now }
        ensures count { result.tables.count ≡ length (S.Source.lists source.now) }
    {
        let n = source.count() as usize;
        let (lists, rest) = memory.split_at_mut(n * n);
        let (places, rest) = rest.split_at_mut(n * n);
        let (sizes, rest) = rest.split_at_mut(n);
        read_lists(source, lists, places, sizes);
        let count = n as u16;
        let tables = Tables {
            count,
            lists,
            places,
            sizes,
        };
        Read { tables, rest }
    }
}

impl Tables<'_> {
    // The door at place k of the list of door x.
    pub(crate) fn door(self, x: u16, k: u16) -> u16
        ensures { result ≡ slice_index self.entry.lists.now (x * self.entry.count + k) }
    {
        cell(self.lists, x as usize * self.count as usize + k as usize, 0)
    }

    // The place of door y on the list of door x, or the number for none.
    // stays: a rule of the project: places are compared as lent memory has them, where the number for none comes after every place
    pub(crate) fn place(self, x: u16, y: u16) -> u16
        ensures { result ≡ slice_index self.entry.places.now (x * self.entry.count + y) }
    {
        cell(
            self.places,
            x as usize * self.count as usize + y as usize,
            0,
        )
    }

    // The size of the list of door x.
    pub(crate) fn size(self, x: u16) -> u16
        ensures { result ≡ slice_index self.entry.sizes.now x }
    {
        cell(self.sizes, x as usize, 0)
    }
}
