//! What may be asked for.

ghost use Rattle.som_test_dump.specs.Kinds.{is_kind};
ghost use Rattle.std.specs.Prelude.{◌≡◌, is_some};
ghost use Rattle.std.specs.Str.{bytes_eq};

/// What is shown of a text.
#[derive(Clone, Copy)]
pub(crate) enum TextKind {
    /// The kinds and places of its tokens.
    Tokens,
    /// The bytes of its tokens.
    Texts,
    /// Its tree as an interface file.
    Idl,
    /// Its tree as a file of bodies.
    Bodies,
    /// Its tree as a main.
    Main,
}

/// What is shown.
#[derive(Clone, Copy)]
pub(crate) enum Kind {
    Text(TextKind),
    /// What bytes hold as a tower image.
    Tower,
}

fn is(name: &[u8], kind: &[u8]) -> bool
    ensures { result ≡ bytes_eq name.now kind.now }
{
    name == kind
}

impl Kind {
    /// The kind of this name.
    pub(crate) fn named(name: &[u8]) -> Option<Kind>
        ensures { is_some result ≡ is_kind name.now }
    {
        if is(name, b"tokens") {
            Some(Kind::Text(TextKind::Tokens))
        } else if is(name, b"texts") {
            Some(Kind::Text(TextKind::Texts))
        } else if is(name, b"idl") {
            Some(Kind::Text(TextKind::Idl))
        } else if is(name, b"bodies") {
            Some(Kind::Text(TextKind::Bodies))
        } else if is(name, b"main") {
            Some(Kind::Text(TextKind::Main))
        } else if is(name, b"tower") {
            Some(Kind::Tower)
        } else {
            None
        }
    }
}
