//! Reading and writing cells of lent memory, also past its end.
ghost use Rattle.std.specs.Prelude.{◌≡◌, slice_index_or, slice_set};
ghost use Rattle.linker.specs.Tables.{Told};

// stays: a rule of the project: lent memory holds plain numbers of 16 bits; 65535 is nobody there, since it is above every door, place and step
pub(crate) const NONE: u16 = 65535;

// What stands in cell i; `other` where the slice has no such cell.
pub(crate) fn cell(cells: &[u16], i: usize, other: u16) -> u16
    ensures { result ≡ slice_index_or cells.now i other }
{
    cells.get(i).copied().unwrap_or(other)
}

// What cell i tells: nothing where it has the number for none, or where the slice has no such cell.
pub(crate) fn told(cells: &[u16], i: usize) -> Option<u16>
    ensures { Told cells.now i result }
{
    cells.get(i).copied().filter(|value| *value != NONE)
}

// Writes cell i; nothing changes where the slice has no such cell.
pub(crate) fn put(cells: &mut [u16], i: usize, value: u16)
    ensures { cells.new ≡ slice_set cells.old i value }
{
    // stays: as plain as `get_mut(i)`, from whose contract the check does not see what the slice has after the write
    if i < cells.len() {
        cells[i] = value;
    }
}
