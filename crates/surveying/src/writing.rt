//! The level file of any source.
ghost use Rattle.std.specs.Prelude.{◌≡◌, IfOk};
ghost use Rattle.codec.specs.Blocks.{baking};

use codec::BLOCK;
use sources::Source;
use std::alloc::{AllocError, Global};

/// The level file of a source's lists.
pub fn level_file<S: Source>(heap: Global, source: &S) -> Result<Vec<u8>, AllocError>
    ensures { IfOk result (λ file. file.items ≡ baking (S.Source.lists source.now)) }
{
    let blocks = usize::from(source.count()) + 1;
    let mut file = vec![in heap; 0; BLOCK * blocks]?;
    let _ = sources::bake(source, file.as_mut_slice());
    Ok(file)
}
