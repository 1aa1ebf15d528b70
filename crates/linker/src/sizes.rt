//! How much lent memory a linker works in.
ghost use Rattle.std.specs.Prelude.{◌≡◌, ◌+◌, ◌*◌};

/// The numbers of lent memory that a linker works in, for this many doors: 3·n·n + 8·n of them for n doors.
pub fn memory_for(doors: u8) -> usize
    ensures { result ≡ 3 * doors * doors + 8 * doors }
{
    let n = usize::from(doors);
    3 * n * n + 8 * n
}
