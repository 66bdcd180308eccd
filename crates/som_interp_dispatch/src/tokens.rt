//! The tokens of the kernel's methods that the interpreter itself calls.

ghost use Rattle.som_model.specs.Kernel.{after_method, before_method, som_dispatch_name, som_free, som_init, som_new, som_uninit};
ghost use Rattle.som_interp_state.specs.Named.{IsTokenOf};
ghost use Rattle.std.specs.Prelude.{◌≡◌};

use som_interp_state::Runtime;
use som_tables::{ClassNo, MToken, Token};

/// The token of somInit.
pub fn init_token<R: Runtime>(runtime: &R) -> MToken
    ensures { IsTokenOf (R.linked runtime.now) som_init result }
{
    runtime.know();
    token(0, 0)
}

/// The token of somUninit.
pub fn uninit_token<R: Runtime>(runtime: &R) -> MToken
    ensures { IsTokenOf (R.linked runtime.now) som_uninit result }
{
    runtime.know();
    token(0, 1)
}

/// The token of somFree.
pub fn free_token<R: Runtime>(runtime: &R) -> MToken
    ensures { IsTokenOf (R.linked runtime.now) som_free result }
{
    runtime.know();
    token(0, 2)
}

/// The token of somDispatchName.
pub fn dispatch_token<R: Runtime>(runtime: &R) -> MToken
    ensures { IsTokenOf (R.linked runtime.now) som_dispatch_name result }
{
    runtime.know();
    token(0, 8)
}

/// The token of somNew.
pub fn new_token<R: Runtime>(runtime: &R) -> MToken
    ensures { IsTokenOf (R.linked runtime.now) som_new result }
{
    runtime.know();
    token(1, 0)
}

/// The token of sommBeforeMethod.
pub fn before_token<R: Runtime>(runtime: &R) -> MToken
    ensures { IsTokenOf (R.linked runtime.now) before_method result }
{
    runtime.know();
    token(3, 0)
}

/// The token of sommAfterMethod.
pub fn after_token<R: Runtime>(runtime: &R) -> MToken
    ensures { IsTokenOf (R.linked runtime.now) after_method result }
{
    runtime.know();
    token(3, 1)
}

fn token(class: u32, place: u16) -> MToken
    ensures { result ≡ (class, place) }
{
    Token::new(ClassNo::new(class), place)
}
