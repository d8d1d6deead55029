//! Laws of the definitions: each is the contract of a function that does nothing.
ghost use Rattle.flute_output.specs.DiskEntries.{LossesAreOfMoments};

/// Whatever a lost power leaves at OUT is what may survive of what a `Moment` says: of OUT as it
/// was then, or of what the disk may still have had at the name.
pub fn losses_are_of_moments()
    ensures { LossesAreOfMoments }
{}
