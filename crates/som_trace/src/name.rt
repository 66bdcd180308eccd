//! A class's name compared with a text, or built where it is short enough.

ghost use Rattle.som_meta.specs.Numbering.{IsNumbered, key_at};
ghost use Rattle.som_model.specs.ClassNames.{class_name};
ghost use Rattle.som_trace.specs.Names.{within};
ghost use Rattle.std.specs.Prelude.{◌≡◌, IfOk};
ghost use Rattle.std.specs.Str.{bytes_eq};

use crate::key_view::ClassKeys;
use crate::pieces::{next_piece, whole_name};
use som_model::{NoMemory, Text};
use som_tables::ClassNo;
use std::alloc::Global;

/// Whether a class has this name. It looks at no more of the class's name than the first piece that differs.
pub(crate) fn is_named<N: ClassKeys>(
    alloc: Global,
    classes: &N,
    class: ClassNo,
    name: &Text,
) -> Result<bool, NoMemory>
    requires { IsNumbered (N.known classes.now) class }
    ensures { IfOk result (λ is. is ≡ bytes_eq name.now (class_name (key_at (N.known classes.now) class))) }
{
    let mut left = whole_name(alloc, class)?;
    let mut rest = name.as_slice();
    while let Some(piece) = next_piece(&mut left, classes)? {
        match rest.strip_prefix(piece) {
            None => return Ok(false),
            Some(after) => rest = after,
        }
    }
    Ok(rest.is_empty())
}

/// The name of a class if it has no more than so many bytes. It takes no more memory than these, however long the name is.
pub fn name_within<N: ClassKeys>(
    alloc: Global,
    classes: &N,
    class: ClassNo,
    most: usize,
) -> Result<Option<Text>, NoMemory>
    requires { IsNumbered (N.known classes.now) class }
    ensures { IfOk result (λ name. name ≡ within most (class_name (key_at (N.known classes.now) class))) }
{
    let mut left = whole_name(alloc, class)?;
    let mut bytes = Vec::new(alloc);
    while let Some(piece) = next_piece(&mut left, classes)? {
        if piece.len() > most - bytes.len() {
            return Ok(None);
        }
        bytes.extend_from_slice(piece)?;
    }
    Ok(Some(Text::from_vec(bytes)))
}
