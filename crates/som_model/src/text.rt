//! `Text`, an immutable string of bytes, whose copies share their buffer.

ghost use Rattle.std.specs.Prelude.{◌≡◌, IfErr, IfOk, length, ◌==◌};
ghost use Rattle.std.specs.Str.{bytes_eq};

use crate::NoMemory;
use crate::text_bytes::TextBytes;
use std::alloc::Global;
use std::cmp::Ordering;
use std::marker::Model;
use std::rc::Rc;

/// A text: any bytes. Texts are ordered by their bytes. A text that was made of a slice shares its bytes with its copies,
/// so that a name is there once however often it is named; one that was made of a vector has them for itself.
pub struct Text {
    bytes: TextBytes,
}

impl Drop for Text {
    fn drop(self) {
        let Text { bytes } = self;
        drop(bytes);
    }
}

impl Model for Text {
    ghost use Rattle.std.specs.Prelude.{List, ℕ};
    ghost use Rattle.std.specs.Coded.{coded_list, coded_ℕ};
    ghost use Rattle.som_model.specs.Texts.{held_bytes};

    ghost Value = { List ℕ };

    ghost coded = { coded_list coded_ℕ };

    ghost view = { λ t. held_bytes t.bytes };
}

impl Text {
    /// The text of these bytes, which are moved.
    pub fn from_vec(bytes: Vec<u8>) -> Text
        ensures { result ≡ bytes.items }
    {
        Text {
            bytes: TextBytes::Moved(bytes),
        }
    }

    /// The bytes, if no copy shares them: this takes no memory.
    pub fn into_vec(self) -> Result<Vec<u8>, Text>
        ensures ok { IfOk result (λ bytes. bytes.items ≡ self) }
        ensures err { IfErr result (λ text. text ≡ self) }
    {
        let Text { bytes } = self;
        match bytes {
            TextBytes::Moved(bytes) => Ok(bytes),
            TextBytes::Shared(shared) => match Rc::try_unwrap(shared) {
                Ok(bytes) => Ok(bytes),
                Err(shared) => Err(Text {
                    bytes: TextBytes::Shared(shared),
                }),
            },
        }
    }

    /// The text of these bytes, which are copied once: copies of the text share them.
    pub fn from_slice(alloc: Global, bytes: &[u8]) -> Result<Text, NoMemory>
        ensures { IfOk result (λ text. text ≡ bytes.now) }
    {
        let shared = Rc::new(alloc, Vec::from_slice(alloc, bytes)?)?;
        Ok(Text {
            bytes: TextBytes::Shared(shared),
        })
    }

    pub fn as_slice(&self) -> &[u8]
        ensures { result.now ≡ self.now }
    {
        match &self.bytes {
            TextBytes::Moved(bytes) => bytes.as_slice(),
            TextBytes::Shared(bytes) => bytes.as_ref().as_slice(),
        }
    }

    pub fn len(&self) -> usize
        ensures { result ≡ length self.now }
    {
        self.as_slice().len()
    }

    pub fn is_empty(&self) -> bool
        ensures { result ≡ (length self.now == 0) }
    {
        self.as_slice().is_empty()
    }

    /// Whether the text is these bytes.
    pub fn is(&self, bytes: &[u8]) -> bool
        ensures { result ≡ bytes_eq self.now bytes.now }
    {
        self.as_slice() == bytes
    }

    /// An equal text. Of one that was made of a slice only the count of its copies grows.
    pub fn copy(&self, alloc: Global) -> Result<Text, NoMemory>
        ensures { IfOk result (λ text. text ≡ self.now) }
    {
        match &self.bytes {
            TextBytes::Moved(bytes) => Text::from_slice(alloc, bytes.as_slice()),
            TextBytes::Shared(bytes) => Ok(Text {
                bytes: TextBytes::Shared(bytes.clone()?),
            }),
        }
    }
}

impl PartialEq for Text {
    ghost use Rattle.std.specs.Str.{bytes_eq};
    ghost use Rattle.std.specs.Cmp.Rules.{comparing};
    ghost use Rattle.std.proofs.Common.{rules};

    ghost eq = { bytes_eq };

    ghost laws = { Prim.search (comparing, rules) };

    fn eq(&self, other: &Text) -> bool {
        self.as_slice() == other.as_slice()
    }
}

impl Eq for Text {
    ghost use Rattle.std.specs.Cmp.Rules.{comparing};
    ghost use Rattle.std.proofs.Common.{rules};

    ghost laws = { Prim.search (comparing, rules) };
}

impl Ord for Text {
    ghost use Rattle.std.specs.Cmp.Rules.{comparing};
    ghost use Rattle.std.specs.Cmp.Lexicographic.{slice_cmp, nat_list_cmp_total};
    ghost use Rattle.std.specs.Ordering.{nat_cmp};
    ghost use Rattle.std.proofs.Common.{rules};

    ghost cmp = { slice_cmp nat_cmp };

    ghost total = { nat_list_cmp_total };

    ghost matches_partial_cmp = { Prim.search (comparing, rules) };

    ghost matches_eq = { Prim.search (comparing, rules) };

    fn cmp(&self, other: &Text) -> Ordering {
        self.as_slice().cmp(other.as_slice())
    }
}

impl PartialOrd for Text {
    ghost use Rattle.std.specs.Cmp.{partial_order_from_own_ties};
    ghost use Rattle.std.specs.Cmp.Rules.{comparing};
    ghost use Rattle.std.specs.Cmp.Lexicographic.{slice_cmp};
    ghost use Rattle.std.specs.Ordering.{nat_cmp, as_partial_cmp};
    ghost use Rattle.std.proofs.Common.{rules};

    ghost partial_cmp = { as_partial_cmp (slice_cmp nat_cmp) };

    ghost laws = { partial_order_from_own_ties (Prim.search (comparing, rules)) (Prim.search (comparing, rules)) };

    fn partial_cmp(&self, other: &Text) -> Option<Ordering> {
        Some(self.cmp(other))
    }
}
