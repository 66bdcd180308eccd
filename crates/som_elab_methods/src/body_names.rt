//! `BodyNames`, which methods of a class have bodies, and which have two or more.

ghost use Rattle.som_ast.specs.declared.body.BodyText.{BodyText as Given};
ghost use Rattle.som_elab_methods.specs.Bodies.{texts_for};
ghost use Rattle.som_elab_methods.specs.Tables.{AreCounted};
ghost use Rattle.som_elab_methods.specs.Texts.{given};
ghost use Rattle.som_order.specs.Names.{texts};
ghost use Rattle.std.specs.Prelude.{◌≡◌, ◌==◌, ◌++◌, ◌∷◌, [], List as Seq, length, IfOk, OnOk};
ghost use Rattle.std.specs.Str.{bytes_eq};

use crate::operations::add_name;
use indexmap::IndexSet;
use som_ast::BodyText;
use som_model::NoMemory;
use som_order::find_name;
use som_sema_drafts::Draft;
use std::alloc::Global;

/// A class with bodies: the names of the methods that have some, and of those that have two or more.
#[derive(Drop)]
pub struct BodyNames<'t, 'b, 'a> {
    pub draft: &'t Draft<'b>,
    pub own: &'t [&'a BodyText],
    all: IndexSet<&'a [u8]>,
    repeated: IndexSet<&'a [u8]>,
    ghost counted: { AreCounted (given own.now) draft.now.decl.face.name (texts all.keys) (texts repeated.keys) },
}

impl<'t, 'b, 'a> BodyNames<'t, 'b, 'a> {
    /// Notes the methods of the bodies that are of a class, in one pass.
    pub fn noted(
        alloc: Global,
        draft: &'t Draft<'b>,
        own: &'t [&'a BodyText],
    ) -> Result<BodyNames<'t, 'b, 'a>, NoMemory>
        ensures draft { IfOk result (λ b. b.draft.now ≡ draft.now) }
        ensures own { IfOk result (λ b. given b.own.now ≡ given own.now) }
    {
        let class = draft.decl.face.name.as_slice();
        let mut all = IndexSet::new(alloc);
        let mut repeated = IndexSet::new(alloc);
        for text in own {
            note_text(&mut all, &mut repeated, class, *text)?;
        }
        Ok(BodyNames {
            draft,
            own,
            all,
            repeated,
        })
    }

    /// Whether the class has exactly one body for a method.
    pub fn is_one(&self, name: &[u8]) -> bool
        ensures { result ≡ (length (texts_for (given self.now.own.now) self.now.draft.now.decl.face.name name.now) == 1) }
    {
        find_name(&self.all, name).is_some() && find_name(&self.repeated, name).is_none()
    }
}

fn note_text<'a>(
    all: &mut IndexSet<&'a [u8]>,
    repeated: &mut IndexSet<&'a [u8]>,
    class: &[u8],
    text: &'a BodyText,
) -> Result<(), NoMemory>
    ensures { (bs : Seq Given) → AreCounted bs class.now (texts all.old.keys) (texts repeated.old.keys)
        → OnOk result (AreCounted (bs ++ text.now ∷ []) class.now (texts all.new.keys) (texts repeated.new.keys)) }
{
    if !is_of(text, class) {
        return Ok(());
    }
    let name = text.method.text.as_slice();
    if find_name(all, name).is_some() {
        add_name(repeated, name)
    } else {
        add_name(all, name)
    }
}

fn is_of(text: &BodyText, class: &[u8]) -> bool
    ensures { result ≡ bytes_eq text.now.class.text class.now }
{
    text.class.text.as_slice() == class
}
