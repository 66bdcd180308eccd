//! The kind of a file by the end of its name: interfaces, bodies or a main.

ghost use Rattle.som_sources.specs.Sources.{kind_of as kind_by_name};
ghost use Rattle.std.specs.Prelude.{◌≡◌};

use som_model::Text;

/// What stands in a text: interfaces, bodies of methods, or the main of a client.
#[derive(Clone, Copy, PartialEq, Eq)]
pub enum SourceKind {
    Interfaces,
    Bodies,
    Main,
}

/// What stands in a text of this name: a main where it ends in `.main`, bodies where it ends in `.bod`, and else interfaces.
pub fn kind_of(name: &Text) -> SourceKind
    ensures { result ≡ kind_by_name name.now }
{
    let name = name.as_slice();
    if name.ends_with(b".main") {
        SourceKind::Main
    } else if name.ends_with(b".bod") {
        SourceKind::Bodies
    } else {
        SourceKind::Interfaces
    }
}
