//! `List<T>`, a vector that contracts see as a list of the values of its items.

ghost use Rattle.som_model.specs.Bytes.{AreBytes};
ghost use Rattle.std.specs.Prelude.{◌≡◌, IfOk, OnErr, OnOk, [], length, ◌++◌, ◌∷◌, ◌==◌};

use crate::NoMemory;
use std::alloc::Global;
use std::marker::Model;

/// A list of values, which contracts see as a list. It is made from a `Vec` and gives it back without taking memory.
pub struct List<T> {
    items: Vec<T>,
}

impl<T: Drop> Drop for List<T> {
    fn drop(self) {
        let List { items } = self;
        drop(items);
    }
}

impl<T> Model for List<T> {
    ghost use Rattle.std.specs.Prelude.{List as Seq};
    ghost use Rattle.std.specs.Coded.{coded_list};

    ghost Value = { Seq T };

    ghost coded = { coded_list T.code };

    ghost view = { λ a. a.items.items };
}

impl<T> List<T> {
    /// The empty list, which takes no memory.
    pub fn new(alloc: Global) -> List<T>
        ensures { result ≡ [] }
    {
        List {
            items: Vec::new(alloc),
        }
    }

    pub fn from_vec(items: Vec<T>) -> List<T>
        ensures { result ≡ items.items }
    {
        List { items }
    }

    pub fn into_vec(self) -> Vec<T>
        ensures { result.items ≡ self }
    {
        let List { items } = self;
        items
    }

    pub fn len(&self) -> usize
        ensures { result ≡ length self.now }
    {
        self.items.len()
    }

    pub fn is_empty(&self) -> bool
        ensures { result ≡ (length self.now == 0) }
    {
        self.items.is_empty()
    }

    pub fn as_slice(&self) -> &[T]
        ensures { result.now ≡ self.now }
    {
        self.items.as_slice()
    }
}

impl<T: Drop> List<T> {
    /// The empty list, with room for so many items.
    pub fn with_room(alloc: Global, room: usize) -> Result<List<T>, NoMemory>
        ensures { IfOk result (λ list. list ≡ []) }
    {
        Ok(List {
            items: Vec::with_capacity(alloc, room)?,
        })
    }

    pub fn push(&mut self, item: T) -> Result<(), NoMemory>
        ensures ok { OnOk result (self.new ≡ self.old ++ item ∷ []) }
        ensures err { OnErr result (self.new ≡ self.old) }
    {
        self.items.push(item)?;
        Ok(())
    }
}

impl<T: Copy> List<T> {
    pub fn extend_from_slice(&mut self, items: &[T]) -> Result<(), NoMemory>
        ensures ok { OnOk result (self.new ≡ self.old ++ items.now) }
        ensures err { OnErr result (self.new ≡ self.old) }
    {
        self.items.extend_from_slice(items)?;
        Ok(())
    }

    pub fn from_slice(alloc: Global, items: &[T]) -> Result<List<T>, NoMemory>
        ensures { IfOk result (λ list. list ≡ items.now) }
    {
        Ok(List {
            items: Vec::from_slice(alloc, items)?,
        })
    }

    pub fn copy(&self, alloc: Global) -> Result<List<T>, NoMemory>
        ensures { IfOk result (λ list. list ≡ self.now) }
    {
        List::from_slice(alloc, self.items.as_slice())
    }
}

// The items of a slice of bytes are bytes, which a list alone doesn't tell a proof.
fn know_bytes(bytes: &[u8])
    ensures { AreBytes bytes.now }
{
    let _len = bytes.len();
}

impl List<u8> {
    /// The bytes, with the knowledge that each is below 256.
    pub fn as_bytes(&self) -> &[u8]
        ensures value { result.now ≡ self.now }
        ensures bytes { AreBytes self.now }
    {
        let all = self.items.as_slice();
        know_bytes(all);
        all
    }
}
