//! The hooks of a metaclass: whose bodies run before and after the methods of its instances.
#![tactic(auto)]

ghost use Rattle.som_hooks.specs.Hooks.{is_hook as is_hook_key};
ghost use Rattle.som_meta.specs.Numbering.{AreApart, AreNumbered, IsNumbered, key_at};
ghost use Rattle.som_model.specs.Metaclass.{hooks as hooks_at};
ghost use Rattle.std.specs.Prelude.{◌≡◌, IfOk, filter, map};

use som_meta::Ancestry;
use som_model::{List, NoMemory};
use som_tables::{ClassNo, Token};
use std::alloc::Global;

/// Whether an ancestor of a metaclass below SOMMBeforeAfter is a hook.
fn is_hook<H: Ancestry>(known: &H, class: ClassNo) -> bool
    requires apart { AreApart (H.known known.now) }
    requires numbered { IsNumbered (H.known known.now) class }
    ensures { result ≡ is_hook_key (H.known known.now).classes (key_at (H.known known.now) class) }
{
    let base = known.before_after();
    class != base
        && (known.has_body(class, Token::new(base, 0))
            || known.has_body(class, Token::new(base, 1)))
}

/// The hooks among these classes.
fn hooks_among<H: Ancestry>(
    alloc: Global,
    known: &H,
    classes: &[ClassNo],
) -> Result<List<ClassNo>, NoMemory>
    requires apart { AreApart (H.known known.now) }
    requires numbered { AreNumbered (H.known known.now) classes.now }
    ensures numbered { IfOk result (λ hooks. AreNumbered (H.known known.now) hooks) }
    ensures keys { IfOk result (λ hooks. map (key_at (H.known known.now)) hooks
        ≡ filter (is_hook_key (H.known known.now).classes) (map (key_at (H.known known.now)) classes.now)) }
{
    let mut hooks = List::new(alloc);
    for class in classes {
        if is_hook(known, *class) {
            hooks.push(*class)?;
        }
    }
    Ok(hooks)
}

/// The hooks of a metaclass, in the order in which their before bodies run. It asks each ancestor of the metaclass once.
pub fn hooks_of<H: Ancestry>(
    alloc: Global,
    known: &H,
    metaclass: ClassNo,
) -> Result<List<ClassNo>, NoMemory>
    requires { IsNumbered (H.known known.now) metaclass }
    ensures numbered { IfOk result (λ hooks. AreNumbered (H.known known.now) hooks) }
    ensures keys { IfOk result (λ hooks. map (key_at (H.known known.now)) hooks
        ≡ hooks_at (H.known known.now).classes (key_at (H.known known.now) metaclass)) }
{
    if known.is_a(metaclass, known.before_after()) {
        hooks_among(alloc, known, known.ancestors(metaclass).as_slice())
    } else {
        Ok(List::new(alloc))
    }
}
