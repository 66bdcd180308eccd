//! Linking: a client and a library become a linked kernel, or the first obstacle is answered.

ghost use Rattle.som_classmgr.specs.Reached.{IsMadeBy};
ghost use Rattle.som_class_kernel.specs.Linked.{IsMadeIn};
ghost use Rattle.som_link_check.specs.Pairs.{ProgramCounted, ReleaseCounted, obstacle};
ghost use Rattle.som_link_check.specs.Told.{Tells};
ghost use Rattle.som_model.specs.Binds.{Binds};
ghost use Rattle.som_model.specs.Classes.{classes as all_classes};
ghost use Rattle.std.specs.Prelude.{◌≡◌, ◌↔◌, ◌<◌, [], ℕ, IfOk};

use crate::kernel::{Kernel, Unlinked, kernel_of};
use som_class_kernel::{Linked, classes_of_pair, own_classes_of_pair};
use som_link_check::{LinkFault, look_at_pair};
use som_model::{ClientProgram, Release};
use std::alloc::Global;

impl Kernel<Unlinked> {
    /// Links a client with a library: looks at the library's rules, then the client's, and then whether the library keeps what the client was compiled
    /// against, and then makes a kernel of the classes of both. A pair in whose way nothing is binds, and no other limit is met.
    pub fn link(
        self,
        alloc: Global,
        library: &Release,
        client: &ClientProgram,
    ) -> Result<Kernel<Linked>, LinkFault>
        requires library { ReleaseCounted library.now }
        requires client { ProgramCounted client.now }
        ensures tells { Tells (obstacle library.now client.now) result }
        ensures binds { IfOk result (λ _. Binds client.now library.now) }
        ensures classes { IfOk result (λ k. k.classes.classes ≡ all_classes library.now client.now) }
        ensures main { IfOk result (λ k. k.main ≡ client.now.main) }
        ensures made { IfOk result (λ k. (n : ℕ) → IsMadeIn k n ↔ (n < 4)) }
        ensures all { IfOk result (IsMadeBy [] []) }
    {
        look_at_pair(alloc, library, client)?;
        let main = client.main.copy(alloc)?;
        let classes = classes_of_pair(alloc, library, client)?;
        Ok(kernel_of(alloc, classes, main)?)
    }

    /// As `link`, of a pair that is given away: no body is copied, and what the client was compiled against is dropped before the
    /// kernel is made.
    pub fn link_owned(
        self,
        alloc: Global,
        library: Release,
        client: ClientProgram,
    ) -> Result<Kernel<Linked>, LinkFault>
        requires library { ReleaseCounted library }
        requires client { ProgramCounted client }
        ensures tells { Tells (obstacle library client) result }
        ensures binds { IfOk result (λ _. Binds client library) }
        ensures classes { IfOk result (λ k. k.classes.classes ≡ all_classes library client) }
        ensures main { IfOk result (λ k. k.main ≡ client.main) }
        ensures made { IfOk result (λ k. (n : ℕ) → IsMadeIn k n ↔ (n < 4)) }
        ensures all { IfOk result (IsMadeBy [] []) }
    {
        look_at_pair(alloc, &library, &client)?;
        let Release { classes: declared } = library;
        let ClientProgram {
            base,
            classes: own,
            main,
        } = client;
        drop(base);
        let classes = own_classes_of_pair(alloc, declared, own)?;
        Ok(kernel_of(alloc, classes, main)?)
    }
}
