//! The walk over expressions that gathers the classes whose proxies they name.

ghost use Rattle.som_model.specs.Blocks.{is_call};
ghost use Rattle.som_model.specs.Lists.{joined};
ghost use Rattle.som_proxy_uses.specs.Forms.{expr_proxies};
ghost use Rattle.som_proxy_uses.specs.Proxied.{proxies_of};
ghost use Rattle.std.specs.Prelude.{◌≡◌, ◌++◌, ◌∷◌, [], map, true, OnOk};

use som_model::{Boxed, ClassKey, Expr, List, NoMemory};
use std::alloc::Global;

// One class more.
fn note_class_of(
    alloc: Global,
    class: &ClassKey,
    named: &mut List<ClassKey>,
) -> Result<(), NoMemory>
    ensures { OnOk result (proxies_of named.new ≡ proxies_of named.old ++ ClassKey.Proxy class.now ∷ []) }
{
    named.push(class.copy(alloc)?)
}

// The classes of which an expression names proxies, from left to right.
#[cycle(note_expr)]
pub(crate) fn note_expr(alloc: Global, e: &Expr, named: &mut List<ClassKey>) -> Result<(), NoMemory>
    ensures { OnOk result (proxies_of named.new ≡ proxies_of named.old ++ expr_proxies e.now) }
{
    match e {
        Expr::Long(_) => Ok(()),
        Expr::Str(_) => Ok(()),
        Expr::Boolean(_) => Ok(()),
        Expr::Nil => Ok(()),
        Expr::Local(_) => Ok(()),
        Expr::Me => Ok(()),
        Expr::Variable(_) => Ok(()),
        Expr::Unary { of, .. } => note_part(alloc, of, named),
        Expr::Binary { left, right, .. } => note_both(alloc, left, right, named),
        Expr::New(_) => Ok(()),
        Expr::Class(_) => Ok(()),
        Expr::Manager => Ok(()),
        Expr::Cast { of, .. } => note_part(alloc, of, named),
        Expr::Isa { of, .. } => note_part(alloc, of, named),
        Expr::Proxy { class, of } => {
            note_class_of(alloc, class.get(), named)?;
            note_part(alloc, of, named)
        }
        Expr::Host { a, b, .. } => note_both(alloc, a, b, named),
        _ => note_call(alloc, e, named),
    }
}

// The classes of which a call names proxies, its receiver first.
#[cycle(note_expr)]
fn note_call(alloc: Global, e: &Expr, named: &mut List<ClassKey>) -> Result<(), NoMemory>
    requires { is_call e.now ≡ true }
    ensures { OnOk result (proxies_of named.new ≡ proxies_of named.old ++ expr_proxies e.now) }
{
    match e {
        Expr::OffsetCall { receiver, args, .. } => note_all(alloc, args, receiver, named),
        Expr::Lookup { receiver, args, .. } => note_all(alloc, args, receiver, named),
        Expr::Dispatch { receiver, args, .. } => note_all(alloc, args, receiver, named),
        Expr::ParentCall { args, .. } => note_args(alloc, args, named),
        Expr::ParentsCall { args, .. } => note_args(alloc, args, named),
        _ => unreachable!(),
    }
}

#[cycle(note_expr)]
fn note_part(alloc: Global, part: &Boxed<Expr>, named: &mut List<ClassKey>) -> Result<(), NoMemory>
    ensures { OnOk result (proxies_of named.new ≡ proxies_of named.old ++ expr_proxies part.now) }
{
    note_expr(alloc, part.get(), named)
}

#[cycle(note_expr)]
fn note_both(
    alloc: Global,
    left: &Boxed<Expr>,
    right: &Boxed<Expr>,
    named: &mut List<ClassKey>,
) -> Result<(), NoMemory>
    ensures { OnOk result (proxies_of named.new ≡ proxies_of named.old ++ (expr_proxies left.now ++ expr_proxies right.now)) }
{
    note_part(alloc, left, named)?;
    note_part(alloc, right, named)
}

// A receiver, and then arguments.
#[cycle(note_expr)]
fn note_all(
    alloc: Global,
    args: &List<Expr>,
    receiver: &Boxed<Expr>,
    named: &mut List<ClassKey>,
) -> Result<(), NoMemory>
    ensures { OnOk result (proxies_of named.new ≡ proxies_of named.old ++ (expr_proxies receiver.now ++ joined (map expr_proxies args.now))) }
{
    note_part(alloc, receiver, named)?;
    note_args(alloc, args, named)
}

#[cycle(note_expr)]
fn note_args(alloc: Global, args: &List<Expr>, named: &mut List<ClassKey>) -> Result<(), NoMemory>
    ensures { OnOk result (proxies_of named.new ≡ proxies_of named.old ++ joined (map expr_proxies args.now)) }
{
    for arg in args.as_slice() {
        note_expr(alloc, arg, named)?;
    }
    Ok(())
}
