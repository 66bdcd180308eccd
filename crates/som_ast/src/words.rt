//! Words and type names with their places among the tokens.

use som_model::Text;

/// A word of the text, with its place among the tokens.
pub struct Word {
    pub text: Text,
    pub token: usize,
}

impl Drop for Word {
    fn drop(self) {
        let Word { text, token: _ } = self;
        drop(text);
    }
}

/// A type as it is written; a class by its name, which no scope has looked up.
pub enum TypeName {
    Long,
    Boolean,
    Str,
    Class(Word),
}

impl Drop for TypeName {
    fn drop(self) {
        match self {
            TypeName::Long => {}
            TypeName::Boolean => {}
            TypeName::Str => {}
            TypeName::Class(it) => drop(it),
        }
    }
}
