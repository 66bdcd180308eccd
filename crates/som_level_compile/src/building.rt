//! Builds the flat program that the trees of a level's texts stand for.

ghost use Rattle.som_ast.specs.declared.body.MainFile.{MainFile as Tree};
ghost use Rattle.som_compile.specs.Compiling.{IsBase, building_told, program_of};
ghost use Rattle.som_elab.specs.Blocks.{Answers};
ghost use Rattle.som_level_compile.specs.CompilingLevels.{IsMainOf, empty_main};
ghost use Rattle.som_model.specs.Conforming.{ProgramOk};
ghost use Rattle.som_sources.specs.Reading.{Tells};
ghost use Rattle.std.specs.Prelude.{◌≡◌, [], ◌∷◌, IfOk, length, true};

use som_ast::{BlockText, MainFile};
use som_elab::elaborate;
use som_model::{ClientProgram, Interface, List};
use som_sema_drafts::Refused;
use som_sources::{CompileFault, TextFault, Trees};
use std::alloc::Global;

/// The flat program above a base, or what is first wrong: a client's with the main of its texts, a library's with an empty one.
pub fn level_program(
    alloc: Global,
    base: &Interface,
    client: bool,
    trees: &Trees,
) -> Result<ClientProgram, Refused>
    requires base { IsBase base.now }
    requires mains { client ≡ true → length trees.now.mains ≡ 1 }
    ensures answers { (main : Tree) × IsMainOf client trees.now main × Answers (program_of base.now trees.now main) result }
    ensures conforms { IfOk result ProgramOk }
{
    if client {
        client_program(alloc, base, trees)
    } else {
        library_program(alloc, base, trees)
    }
}

fn client_program(alloc: Global, base: &Interface, trees: &Trees) -> Result<ClientProgram, Refused>
    requires base { IsBase base.now }
    requires mains { length trees.now.mains ≡ 1 }
    ensures answers { (main : Tree) × (trees.now.mains ≡ main ∷ []) × Answers (program_of base.now trees.now main) result }
    ensures conforms { IfOk result ProgramOk }
{
    let main = only_main(&trees.mains);
    elaborate(alloc, base, &trees.interfaces, &trees.bodies, main)
}

// The only one of the mains.
#[tactic(auto, using(som_compile::proofs::ClientLaws::only_main))]
fn only_main(mains: &List<MainFile>) -> &MainFile
    requires { length mains.now ≡ 1 }
    ensures { mains.now ≡ result.now ∷ [] }
{
    &mains.as_slice()[0]
}

fn library_program(alloc: Global, base: &Interface, trees: &Trees) -> Result<ClientProgram, Refused>
    requires { IsBase base.now }
    ensures answers { Answers (program_of base.now trees.now empty_main) result }
    ensures conforms { IfOk result ProgramOk }
{
    let main = no_statements(alloc);
    elaborate(alloc, base, &trees.interfaces, &trees.bodies, &main)
}

// A main without statements.
fn no_statements(alloc: Global) -> MainFile
    ensures { result ≡ empty_main }
{
    MainFile {
        block: BlockText {
            statements: List::new(alloc),
        },
    }
}

/// What is told of texts that stand for nothing.
pub fn unbuilt(refused: Refused) -> CompileFault
    ensures { Tells (building_told refused) result }
{
    match refused {
        Refused::Rule(broken) => CompileFault::Text(TextFault::Rule(broken)),
        Refused::Limit { quantity, number } => {
            CompileFault::Text(TextFault::Limit { quantity, number })
        }
        Refused::NoMemory => CompileFault::NoMemory,
    }
}
