//! Laws of the sources, each the contract of a function.
ghost use Rattle.sources.specs.Files.{ReadsBack};

/// The file of any source's lists reads back as the same lists.
pub fn baked_lists_read_back()
    ensures { ReadsBack }
{}
