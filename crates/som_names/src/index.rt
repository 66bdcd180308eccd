//! The index of names: which method a name means in a class, by asking its ancestors in order.

ghost use Rattle.som_names.specs.Index.{KeepsOthers, ancestors_at, asked, found, named_at, own_token};
ghost use Rattle.std.specs.Prelude.{◌≡◌, ◌+◌, [], None, OnErr, OnOk, Some, length};

use crate::named::{Named, copy_names, token_of};
use som_model::{List, NoMemory, Text};
use som_tables::{ClassNo, MToken, Steps};
use std::alloc::Global;
use std::collections::HashMap;
use std::marker::Model;
use std::sync::ledger::Ledger;

/// For each class the methods that it introduces by their names, and its ancestors. A name stands once, whatever classes inherit it.
pub struct NameIndex {
    classes: HashMap<ClassNo, Named>,
}

impl Drop for NameIndex {
    fn drop(self) {
        let NameIndex { classes } = self;
        drop(classes);
    }
}

impl Model for NameIndex {
    ghost use Rattle.std.specs.Prelude.{ℕ, List};
    ghost use Rattle.som_names.specs.declared.named.Named.{Named};

    ghost Value = { List (ℕ × Named) };

    ghost view = { λ i. i.classes.entries };
}

impl NameIndex {
    /// The empty index, which takes no memory.
    pub fn new(alloc: Global) -> NameIndex
        ensures { result ≡ [] }
    {
        NameIndex {
            classes: HashMap::new(alloc),
        }
    }

    /// Adds a class that wasn't added before: its ancestors with itself first, and the names that it introduces with their tokens.
    pub fn add(
        &mut self,
        alloc: Global,
        class: ClassNo,
        ancestors: &List<ClassNo>,
        introduced: &List<Text>,
        tokens: &List<MToken>,
    ) -> Result<(), NoMemory>
        requires new { named_at self.old class ≡ None }
        requires long { length tokens.now ≡ length introduced.now }
        ensures added { OnOk result (named_at self.new class ≡ Some (record { ancestors = ancestors.now; names = introduced.now; tokens = tokens.now })) }
        ensures others { KeepsOthers self.old self.new class }
        ensures err { OnErr result (self.new ≡ self.old) }
    {
        let named = Named {
            ancestors: ancestors.copy(alloc)?,
            names: copy_names(alloc, introduced.as_slice())?,
            tokens: tokens.copy(alloc)?,
        };
        match self.classes.insert(class, named) {
            Ok(_) => Ok(()),
            Err(_) => Err(NoMemory),
        }
    }

    /// The ancestors of a class.
    fn ancestors(&self, class: ClassNo) -> &[ClassNo]
        ensures { result.now ≡ ancestors_at self.now class }
    {
        match self.classes.get(&class) {
            Some(named) => named.ancestors.as_slice(),
            None => &[],
        }
    }

    /// The token of a name where the class introduces it.
    fn own(&self, class: ClassNo, name: &Text) -> Option<MToken>
        ensures { result ≡ own_token self.now name.now class }
    {
        match self.classes.get(&class) {
            Some(named) => token_of(named.names.as_slice(), named.tokens.as_slice(), name),
            None => None,
        }
    }

    /// The token of a name in a class: that of its first ancestor that introduces it. Each class that is asked is a step.
    pub fn find<L: Ledger>(
        &self,
        class: ClassNo,
        name: &Text,
        steps: &mut Steps<L>,
    ) -> Option<MToken>
        ensures token { result ≡ found self.now class name.now }
        ensures cost { steps.new ≡ steps.old + asked self.now name.now (ancestors_at self.now class) }
    {
        let ancestors = self.ancestors(class);
        for ancestor in ancestors {
            steps.tick();
            let token = self.own(*ancestor, name);
            if token.is_some() {
                return token;
            }
        }
        None
    }
}
