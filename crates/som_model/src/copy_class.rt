//! Copies of signatures, entries, faces, declarations, interfaces and releases with all that they hold.

ghost use Rattle.std.specs.Prelude.{◌≡◌, IfOk, map};

use crate::copy_key::copy_keys;
use crate::{
    Body, ClassDecl, ClassFace, ClassKey, Entry, Interface, List, NoMemory, Override, Release,
    Select, Sig, ValueType, Variable,
};
use std::alloc::Global;

// A list of copies, each made by the function.
fn copy_each<T: Drop, F: Fn(&T) -> Result<T, NoMemory>>(
    alloc: Global,
    items: &List<T>,
    copy: F,
) -> Result<List<T>, NoMemory>
    requires callable { (item : _) → F.pre copy item }
    requires equal { (item : _) (made : _) → F.post copy item made → IfOk made (λ m. m ≡ item.now) }
    ensures { IfOk result (λ copies. copies ≡ items.now) }
{
    let mut copies = List::new(alloc);
    for item in items.as_slice() {
        copies.push(copy(item)?)?;
    }
    Ok(copies)
}

impl Sig {
    pub fn copy(&self, alloc: Global) -> Result<Sig, NoMemory>
        ensures { IfOk result (λ sig. sig ≡ self.now) }
    {
        let params = copy_each(
            alloc,
            &self.params,
            |kind: &ValueType| -> Result<ValueType, NoMemory>
                ensures { IfOk result (λ k. k ≡ kind.now) }
            { kind.copy(alloc) },
        )?;
        Ok(Sig {
            result: self.result.copy(alloc)?,
            params,
        })
    }
}

impl Entry {
    pub fn copy(&self, alloc: Global) -> Result<Entry, NoMemory>
        ensures { IfOk result (λ entry. entry ≡ self.now) }
    {
        match self {
            Entry::Introduced { name, sig, way } => Ok(Entry::Introduced {
                name: name.copy(alloc)?,
                sig: sig.copy(alloc)?,
                way: *way,
            }),
            Entry::Moved { name, to } => Ok(Entry::Moved {
                name: name.copy(alloc)?,
                to: to.copy(alloc)?,
            }),
        }
    }
}

fn copy_metaclass(alloc: Global, metaclass: &Option<ClassKey>) -> Result<Option<ClassKey>, NoMemory>
    ensures { IfOk result (λ copy. copy ≡ metaclass.now) }
{
    match metaclass {
        None => Ok(None),
        Some(key) => Ok(Some(key.copy(alloc)?)),
    }
}

impl ClassFace {
    pub fn copy(&self, alloc: Global) -> Result<ClassFace, NoMemory>
        ensures { IfOk result (λ face. face ≡ self.now) }
    {
        let entries = copy_each(
            alloc,
            &self.entries,
            |entry: &Entry| -> Result<Entry, NoMemory>
                ensures { IfOk result (λ e. e ≡ entry.now) }
            { entry.copy(alloc) },
        )?;
        Ok(ClassFace {
            name: self.name.copy(alloc)?,
            major: self.major,
            minor: self.minor,
            parents: copy_keys(alloc, &self.parents)?,
            metaclass: copy_metaclass(alloc, &self.metaclass)?,
            entries,
        })
    }
}

impl Variable {
    pub fn copy(&self, alloc: Global) -> Result<Variable, NoMemory>
        ensures { IfOk result (λ variable. variable ≡ self.now) }
    {
        Ok(Variable {
            name: self.name.copy(alloc)?,
            kind: self.kind.copy(alloc)?,
        })
    }
}

impl Body {
    pub fn copy(&self, alloc: Global) -> Result<Body, NoMemory>
        ensures { IfOk result (λ body. body ≡ self.now) }
    {
        match self {
            Body::User(block) => Ok(Body::User(block.copy(alloc)?)),
            Body::Get(variable) => Ok(Body::Get(*variable)),
            Body::Set(variable) => Ok(Body::Set(*variable)),
        }
    }
}

impl Override {
    pub fn copy(&self, alloc: Global) -> Result<Override, NoMemory>
        ensures { IfOk result (λ replaced. replaced ≡ self.now) }
    {
        Ok(Override {
            block: self.block.copy(alloc)?,
            method: self.method.copy(alloc)?,
        })
    }
}

impl Select {
    pub fn copy(&self, alloc: Global) -> Result<Select, NoMemory>
        ensures { IfOk result (λ select. select ≡ self.now) }
    {
        Ok(Select {
            method: self.method.copy(alloc)?,
            parent: self.parent,
        })
    }
}

impl ClassDecl {
    pub fn copy(&self, alloc: Global) -> Result<ClassDecl, NoMemory>
        ensures { IfOk result (λ class. class ≡ self.now) }
    {
        let variables = copy_each(
            alloc,
            &self.variables,
            |variable: &Variable| -> Result<Variable, NoMemory>
                ensures { IfOk result (λ v. v ≡ variable.now) }
            { variable.copy(alloc) },
        )?;
        let bodies = copy_each(
            alloc,
            &self.bodies,
            |body: &Body| -> Result<Body, NoMemory>
                ensures { IfOk result (λ b. b ≡ body.now) }
            { body.copy(alloc) },
        )?;
        let overrides = copy_each(
            alloc,
            &self.overrides,
            |replaced: &Override| -> Result<Override, NoMemory>
                ensures { IfOk result (λ o. o ≡ replaced.now) }
            { replaced.copy(alloc) },
        )?;
        let selects = copy_each(
            alloc,
            &self.selects,
            |select: &Select| -> Result<Select, NoMemory>
                ensures { IfOk result (λ s. s ≡ select.now) }
            { select.copy(alloc) },
        )?;
        Ok(ClassDecl {
            face: self.face.copy(alloc)?,
            variables,
            bodies,
            overrides,
            selects,
        })
    }
}

impl Interface {
    pub fn copy(&self, alloc: Global) -> Result<Interface, NoMemory>
        ensures { IfOk result (λ interface. interface ≡ self.now) }
    {
        let classes = copy_each(
            alloc,
            &self.classes,
            |face: &ClassFace| -> Result<ClassFace, NoMemory>
                ensures { IfOk result (λ f. f ≡ face.now) }
            { face.copy(alloc) },
        )?;
        Ok(Interface { classes })
    }
}

impl Release {
    pub fn copy(&self, alloc: Global) -> Result<Release, NoMemory>
        ensures { IfOk result (λ release. release ≡ self.now) }
    {
        let classes = copy_each(
            alloc,
            &self.classes,
            |class: &ClassDecl| -> Result<ClassDecl, NoMemory>
                ensures { IfOk result (λ c. c ≡ class.now) }
            { class.copy(alloc) },
        )?;
        Ok(Release { classes })
    }

    /// The faces of the classes, which a client is compiled against.
    pub fn interface(&self, alloc: Global) -> Result<Interface, NoMemory>
        ensures { IfOk result (λ interface. interface.classes ≡ map (λ c. c.face) self.now.classes) }
    {
        let mut faces = List::new(alloc);
        for class in self.classes.as_slice() {
            faces.push(class.face.copy(alloc)?)?;
        }
        Ok(Interface { classes: faces })
    }
}
