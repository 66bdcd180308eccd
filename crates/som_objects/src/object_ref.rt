//! A reference to an object, by key and serial, and the answer for an object that was freed.

/// A reference to an object: the key under which it is kept, and its serial. Keys are used again once an object was freed;
/// serials aren't, so two references are to one object where their serials are equal.
#[derive(Clone, Copy)]
pub struct ObjRef {
    pub key: u32,
    pub serial: u32,
}

/// The answer for a reference to an object that was freed.
#[derive(Clone, Copy, PartialEq, Eq)]
pub struct Gone;
