//! Laws of the level file, each the contract of a function.
ghost use Rattle.codec.specs.Laws.{FaultlessAreFiles, FilesAreFaultless, OneFirstFault, FilesDiffer};

/// Exactly the files of lawful lists have no first fault.
pub fn faultless_are_files()
    ensures files { FaultlessAreFiles }
    ensures faultless { FilesAreFaultless }
{}

/// There is at most one first fault.
pub fn one_first_fault()
    ensures { OneFirstFault }
{}

/// Different lawful lists have different files.
pub fn baking_is_injective()
    ensures { FilesDiffer }
{}
