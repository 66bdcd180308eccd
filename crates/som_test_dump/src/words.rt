//! Words and types, as both grammars have them.

use crate::lines::Lines;
use som_ast::{TypeName, Word};
use som_model::NoMemory;

impl Lines {
    /// Adds a word, with the place of its token.
    pub(crate) fn add_word(&mut self, word: &Word) -> Result<(), NoMemory> {
        self.add_bytes(word.text.as_slice())?;
        self.add("#")?;
        self.add_number(word.token)
    }

    /// Adds a word after what says which part of a form it is.
    pub(crate) fn add_part(&mut self, form: &str, word: &Word) -> Result<(), NoMemory> {
        self.add(form)?;
        self.add_word(word)
    }

    /// Adds words with commas between.
    pub(crate) fn add_words(&mut self, words: &[Word]) -> Result<(), NoMemory> {
        let mut between = "";
        for word in words {
            self.add_part(between, word)?;
            between = ",";
        }
        Ok(())
    }

    /// Adds a type and a blank.
    pub(crate) fn add_type(&mut self, kind: &TypeName) -> Result<(), NoMemory> {
        match kind {
            TypeName::Long => self.add("long ")?,
            TypeName::Boolean => self.add("boolean ")?,
            TypeName::Str => self.add("string ")?,
            TypeName::Class(word) => {
                self.add_word(word)?;
                self.add(" ")?;
            }
        }
        Ok(())
    }

    /// Adds what a method answers, if anything, and a blank.
    pub(crate) fn add_outcome(&mut self, outcome: &Option<TypeName>) -> Result<(), NoMemory> {
        match outcome {
            None => self.add("void "),
            Some(kind) => self.add_type(kind),
        }
    }
}
