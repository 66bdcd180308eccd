//! The law by which what an image has room for is within the counts of linking.

ghost use Rattle.som_cliimage.specs.Limits as clients;
ghost use Rattle.som_libimage.specs.Limits as libraries;
ghost use Rattle.som_link_check.specs.Pairs.{ProgramCounted, ReleaseCounted};
ghost use Rattle.som_model.specs.declared.program.ClientProgram.{ClientProgram};
ghost use Rattle.som_model.specs.declared.program.Release.{Release};

/// A release that an image has room for, as each that was read, is within the counts that linking asks for, and so is a client
/// program.
pub fn counted_law()
    ensures library { (r : Release) → libraries.IsWithinLimits r → ReleaseCounted r }
    ensures client { (p : ClientProgram) → clients.IsWithinLimits p → ProgramCounted p }
{}
