//! The classes whose proxies are named in the bodies of whole classes and in main.

ghost use Rattle.som_model.specs.Made.{proxies_in};
ghost use Rattle.som_proxy_uses.specs.Forms.{body_proxies, override_proxies};
ghost use Rattle.som_proxy_uses.specs.Proxied.{AreProxied, decl_proxies, proxies_of};
ghost use Rattle.std.specs.Prelude.{◌≡◌, ◌++◌, flat_map, IfOk, OnOk};

use crate::statements::note_block;
use som_model::{Block, Body, ClassDecl, ClassKey, List, NoMemory, Override};
use std::alloc::Global;

/// The classes of which the bodies and overrides of these classes, or main, name proxies, in the order of the text and as
/// often as they do. It takes as long as the text is.
pub fn proxied(
    alloc: Global,
    classes: &[ClassDecl],
    main: &Block,
) -> Result<List<ClassKey>, NoMemory>
    ensures { IfOk result (λ named. AreProxied classes.now main.now named) }
{
    let mut named = List::new(alloc);
    note_classes(alloc, classes, &mut named)?;
    note_block(alloc, main, &mut named)?;
    Ok(named)
}

/// The classes so far, and then those of which the blocks of a class name proxies. It takes the list and gives it back, so
/// that where memory runs out nobody holds a half.
pub fn with_class(
    alloc: Global,
    named: List<ClassKey>,
    class: &ClassDecl,
) -> Result<List<ClassKey>, NoMemory>
    ensures { IfOk result (λ all. proxies_of all ≡ proxies_of named ++ decl_proxies class.now) }
{
    let mut all = named;
    note_class(alloc, class, &mut all)?;
    Ok(all)
}

/// The classes so far, and then those of which a block, as main, names proxies. It takes the list and gives it back, so that
/// where memory runs out nobody holds a half.
pub fn with_block(
    alloc: Global,
    named: List<ClassKey>,
    block: &Block,
) -> Result<List<ClassKey>, NoMemory>
    ensures { IfOk result (λ all. proxies_of all ≡ proxies_of named ++ proxies_in block.now) }
{
    let mut all = named;
    note_block(alloc, block, &mut all)?;
    Ok(all)
}

fn note_classes(
    alloc: Global,
    classes: &[ClassDecl],
    named: &mut List<ClassKey>,
) -> Result<(), NoMemory>
    ensures { OnOk result (proxies_of named.new ≡ proxies_of named.old ++ flat_map decl_proxies classes.now) }
{
    for class in classes {
        note_class(alloc, class, named)?;
    }
    Ok(())
}

fn note_class(alloc: Global, class: &ClassDecl, named: &mut List<ClassKey>) -> Result<(), NoMemory>
    ensures { OnOk result (proxies_of named.new ≡ proxies_of named.old ++ decl_proxies class.now) }
{
    note_bodies(alloc, class.bodies.as_slice(), named)?;
    note_overrides(alloc, class.overrides.as_slice(), named)
}

fn note_bodies(alloc: Global, bodies: &[Body], named: &mut List<ClassKey>) -> Result<(), NoMemory>
    ensures { OnOk result (proxies_of named.new ≡ proxies_of named.old ++ flat_map body_proxies bodies.now) }
{
    for body in bodies {
        note_body(alloc, body, named)?;
    }
    Ok(())
}

fn note_body(alloc: Global, body: &Body, named: &mut List<ClassKey>) -> Result<(), NoMemory>
    ensures { OnOk result (proxies_of named.new ≡ proxies_of named.old ++ body_proxies body.now) }
{
    match body {
        Body::User(block) => note_block(alloc, block, named),
        Body::Get(_) => Ok(()),
        Body::Set(_) => Ok(()),
    }
}

fn note_overrides(
    alloc: Global,
    overrides: &[Override],
    named: &mut List<ClassKey>,
) -> Result<(), NoMemory>
    ensures { OnOk result (proxies_of named.new ≡ proxies_of named.old ++ flat_map override_proxies overrides.now) }
{
    for item in overrides {
        note_block(alloc, &item.block, named)?;
    }
    Ok(())
}
