//! The trees of interface files.

use crate::lines::Lines;
use som_ast::{Export, IdlFile, IdlInterface, Item, Modifier, Param};
use som_model::NoMemory;

impl Lines {
    /// Adds a line for each interface.
    pub(crate) fn add_interfaces(&mut self, file: &IdlFile) -> Result<(), NoMemory> {
        for interface in file.interfaces.as_slice() {
            self.add_interface(interface)?;
            self.end()?;
        }
        Ok(())
    }

    // What stands before the implementation, what stands in it and what stands after it.
    fn add_interface(&mut self, interface: &IdlInterface) -> Result<(), NoMemory> {
        self.add_word(&interface.name)?;
        if !interface.parents.is_empty() {
            self.add(":")?;
            self.add_words(interface.parents.as_slice())?;
        }
        self.add_exports(interface.before.as_slice())?;
        self.add_items(interface.items.as_slice())?;
        self.add_exports(interface.after.as_slice())
    }

    fn add_exports(&mut self, exports: &[Export]) -> Result<(), NoMemory> {
        self.add("[")?;
        for export in exports {
            self.add_export(export)?;
            self.add(";")?;
        }
        self.add("]")
    }

    fn add_export(&mut self, export: &Export) -> Result<(), NoMemory> {
        match export {
            Export::Attribute {
                readonly,
                kind,
                names,
            } => {
                self.add(if *readonly { "readonly " } else { "attribute " })?;
                self.add_type(kind)?;
                self.add_words(names.as_slice())
            }
            Export::Operation {
                result,
                name,
                params,
            } => {
                self.add_outcome(result)?;
                self.add_word(name)?;
                self.add("(")?;
                self.add_params(params.as_slice())?;
                self.add(")")
            }
        }
    }

    fn add_params(&mut self, params: &[Param]) -> Result<(), NoMemory> {
        let mut between = "";
        for param in params {
            self.add(between)?;
            self.add_type(&param.kind)?;
            self.add_word(&param.name)?;
            between = ",";
        }
        Ok(())
    }

    fn add_items(&mut self, items: &[Item]) -> Result<(), NoMemory> {
        self.add("{")?;
        for item in items {
            self.add_item(item)?;
            self.add(";")?;
        }
        self.add("}")
    }

    fn add_item(&mut self, item: &Item) -> Result<(), NoMemory> {
        match item {
            Item::ReleaseOrder { names } => {
                self.add("order ")?;
                self.add_words(names.as_slice())
            }
            Item::Metaclass { name } => self.add_part("metaclass ", name),
            Item::Major { number } => {
                self.add("major ")?;
                self.add_number(*number as usize)
            }
            Item::Minor { number } => {
                self.add("minor ")?;
                self.add_number(*number as usize)
            }
            Item::Method { name, modifiers } => {
                self.add_part("method ", name)?;
                self.add(" ")?;
                self.add_modifiers(modifiers.as_slice())
            }
            Item::Variables { kind, names } => {
                self.add_type(kind)?;
                self.add_words(names.as_slice())
            }
        }
    }

    fn add_modifiers(&mut self, modifiers: &[Modifier]) -> Result<(), NoMemory> {
        for modifier in modifiers {
            self.add_modifier(modifier)?;
            self.add(",")?;
        }
        Ok(())
    }

    fn add_modifier(&mut self, modifier: &Modifier) -> Result<(), NoMemory> {
        match modifier {
            Modifier::Override => self.add("override"),
            Modifier::NameLookup => self.add("namelookup"),
            Modifier::Offset => self.add("offset"),
            Modifier::Select { parent } => self.add_part("select ", parent),
        }
    }
}
