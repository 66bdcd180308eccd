//! The syntax trees of all files of one compilation, by the kind of file.

ghost use Rattle.som_sources.specs.Reading.{no_trees, with_last};
ghost use Rattle.std.specs.Prelude.{◌≡◌, OnErr, OnOk};

use som_ast::{BodyFile, IdlFile, MainFile};
use som_model::{List, NoMemory};
use std::alloc::Global;

/// The tree of one text, of the kind that the text's name says.
#[derive(Drop)]
pub enum TextTree {
    Interfaces(IdlFile),
    Bodies(BodyFile),
    Main(MainFile),
}

/// The trees of texts, those of each kind in the order of the texts.
#[derive(Drop)]
pub struct Trees {
    pub interfaces: List<IdlFile>,
    pub bodies: List<BodyFile>,
    pub mains: List<MainFile>,
}

impl Trees {
    /// Three empty lists, which take no memory.
    pub fn new(alloc: Global) -> Trees
        ensures { result ≡ no_trees }
    {
        Trees {
            interfaces: List::new(alloc),
            bodies: List::new(alloc),
            mains: List::new(alloc),
        }
    }

    /// Adds the tree of the next text.
    pub fn push(&mut self, tree: TextTree) -> Result<(), NoMemory>
        ensures ok { OnOk result (self.new ≡ with_last self.old tree) }
        ensures err { OnErr result (self.new ≡ self.old) }
    {
        match tree {
            TextTree::Interfaces(file) => self.interfaces.push(file),
            TextTree::Bodies(file) => self.bodies.push(file),
            TextTree::Main(file) => self.mains.push(file),
        }
    }
}
