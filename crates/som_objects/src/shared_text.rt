//! `SharedText`, a text behind one pointer, which its copies share.

ghost use Rattle.std.specs.Prelude.{◌≡◌, IfOk, length};

use som_model::{NoMemory, Text};
use std::alloc::Global;
use std::marker::Model;
use std::rc::Rc;

/// A text of the size of a pointer. Its copies share it.
pub struct SharedText {
    text: Rc<Text>,
}

impl Drop for SharedText {
    fn drop(self) {
        let SharedText { text } = self;
        drop(text);
    }
}

impl Model for SharedText {
    ghost use Rattle.std.specs.Prelude.{List, ℕ};
    ghost use Rattle.std.specs.Coded.{coded_list, coded_ℕ};

    ghost Value = { List ℕ };

    ghost coded = { coded_list coded_ℕ };

    ghost view = { λ t. t.text.value };
}

impl SharedText {
    /// The same text, which is moved.
    pub fn from_text(alloc: Global, text: Text) -> Result<SharedText, NoMemory>
        ensures { IfOk result (λ shared. shared ≡ text) }
    {
        Ok(SharedText {
            text: Rc::new(alloc, text)?,
        })
    }

    /// The text of these bytes, which are moved.
    pub fn from_vec(alloc: Global, bytes: Vec<u8>) -> Result<SharedText, NoMemory>
        ensures { IfOk result (λ shared. shared ≡ bytes.items) }
    {
        SharedText::from_text(alloc, Text::from_vec(bytes))
    }

    pub fn as_slice(&self) -> &[u8]
        ensures { result.now ≡ self.now }
    {
        self.text.as_ref().as_slice()
    }

    pub fn len(&self) -> usize
        ensures { result ≡ length self.now }
    {
        self.as_slice().len()
    }

    /// The same text. It takes no memory; where no further copy can be counted, memory is wanting.
    pub fn copy(&self) -> Result<SharedText, NoMemory>
        ensures { IfOk result (λ text. text ≡ self.now) }
    {
        Ok(SharedText {
            text: self.text.clone()?,
        })
    }
}
