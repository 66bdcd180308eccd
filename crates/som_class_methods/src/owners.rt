//! For each entry of a declared class, the token of the method that owns it.

ghost use Rattle.som_meta.specs.Numbering.{key_at};
ghost use Rattle.som_model.specs.Class.{entry_name};
ghost use Rattle.som_model.specs.Owner.{entry_at, owner};
ghost use Rattle.som_class_ids.specs.Numbers.{AreFirst};
ghost use Rattle.som_class_methods.specs.Owners.{AreFaces, AreOwned, HasEntries, HaveOwners, IsBefore, IsEntry, IsTokenOf, ref};
ghost use Rattle.std.specs.Prelude.{◌≡◌, ◌+◌, ◌<◌, [], IfOk, IsSome, Some, length, slice_get, slice_index_or};

use crate::entries::{entry_place, introduced_with};
use som_class_ids::Numbers;
use som_model::{ClassKey, Entry, List, MethodRef, NoMemory, Text};
use som_tables::{ClassNo, MToken, Token};
use std::alloc::Global;

/// For each declared class the tokens of its entries, in their order: those of the methods that own them.
pub struct Owners {
    tokens: List<List<MToken>>,
}

impl Drop for Owners {
    fn drop(self) {
        let Owners { tokens } = self;
        drop(tokens);
    }
}

fn token_in(tokens: &[MToken], place: usize) -> MToken
    requires { place < length tokens.now }
    ensures { slice_get tokens.now place ≡ Some result }
{
    tokens[place]
}

fn tokens_of(tokens: &[List<MToken>], class: ClassNo) -> &[MToken]
    requires { class < length tokens.now }
    ensures { result.now ≡ slice_index_or tokens.now class [] }
{
    tokens[class.number() as usize].as_slice()
}

/// The token of the owner of a method that is named by a class whose tokens are known.
fn owner_in(numbers: &Numbers, known: &[List<MToken>], class: &ClassKey, name: &Text) -> MToken
    requires first { AreFirst numbers.now }
    requires owned { AreOwned numbers.now known.now }
    requires faces { AreFaces numbers.now.classes }
    requires before { IsBefore numbers.now (length known.now) class.now }
    requires entry { IsSome (entry_at numbers.now.classes class.now name.now) }
    ensures { IsTokenOf numbers.now result (owner numbers.now.classes (ref class.now name.now)) }
{
    let number = numbers.number_of(class);
    let place = entry_place(numbers.declared(number).decl.face.entries.as_slice(), name);
    token_in(tokens_of(known, number), place)
}

/// The token of the owner of an entry, where so many entries before it introduce their methods.
fn entry_token(
    numbers: &Numbers,
    known: &[List<MToken>],
    class: ClassNo,
    entry: &Entry,
    own: usize,
) -> MToken
    requires first { AreFirst numbers.now }
    requires owned { AreOwned numbers.now known.now }
    requires faces { AreFaces numbers.now.classes }
    requires next { class ≡ length known.now }
    requires entry { IsEntry numbers.now class entry.now own }
    ensures { IsTokenOf numbers.now result (owner numbers.now.classes (ref (key_at numbers.now class) (entry_name entry.now))) }
{
    match entry {
        Entry::Introduced { .. } => Token::new(class, own as u16),
        Entry::Moved { name, to } => owner_in(numbers, known, to, name),
    }
}

/// The tokens of a class's entries, where those of all classes before it are known.
fn class_tokens(
    alloc: Global,
    numbers: &Numbers,
    known: &[List<MToken>],
    class: ClassNo,
    entries: &[Entry],
) -> Result<List<MToken>, NoMemory>
    requires first { AreFirst numbers.now }
    requires owned { AreOwned numbers.now known.now }
    requires faces { AreFaces numbers.now.classes }
    requires next { class ≡ length known.now }
    requires entries { HasEntries numbers.now class entries.now }
    ensures { IfOk result (λ ts. HaveOwners numbers.now (key_at numbers.now class) entries.now ts) }
{
    let mut tokens = List::new(alloc);
    let mut own = 0;
    for entry in entries {
        tokens.push(entry_token(numbers, known, class, entry, own))?;
        own = introduced_with(own, entry);
    }
    Ok(tokens)
}

fn all_tokens(alloc: Global, numbers: &Numbers) -> Result<List<List<MToken>>, NoMemory>
    requires { AreFaces numbers.now.classes }
    ensures first { AreFirst numbers.now }
    ensures owned { IfOk result (λ ts. AreOwned numbers.now ts) }
    ensures each { IfOk result (λ ts. length ts ≡ length numbers.now.classes) }
{
    let mut tokens = List::new(alloc);
    for number in 0..numbers.declared_count() {
        let class = ClassNo::new(number);
        let entries = numbers.declared(class).decl.face.entries.as_slice();
        let own = class_tokens(alloc, numbers, tokens.as_slice(), class, entries)?;
        tokens.push(own)?;
    }
    Ok(tokens)
}

impl Owners {
    ghost use Rattle.som_class_methods.specs.Tokens.{IsOwners};

    /// The tokens of the entries of all declared classes, each class after those to which its entries were moved.
    pub fn new(alloc: Global, numbers: &Numbers) -> Result<Owners, NoMemory>
        requires { AreFaces numbers.now.classes }
        ensures { IfOk result (λ owners. IsOwners numbers.now owners) }
    {
        Ok(Owners {
            tokens: all_tokens(alloc, numbers)?,
        })
    }

    /// The token of the owner of a method that an entry of its class names.
    pub fn method_token(&self, numbers: &Numbers, method: &MethodRef) -> MToken
        requires owners { IsOwners numbers.now self.now }
        requires faces { AreFaces numbers.now.classes }
        requires entry { IsSome (entry_at numbers.now.classes method.now.class method.now.name) }
        ensures { IsTokenOf numbers.now result (owner numbers.now.classes method.now) }
    {
        owner_in(numbers, self.tokens.as_slice(), &method.class, &method.name)
    }
}
