//! A linked kernel as a `Runtime`: what a runner asks of classes, methods and variables.

ghost use Rattle.som_model.specs.Kernel.{som_class_mgr};

use crate::asked::{own_count, proxy_number, zero_in};
use crate::kernel::Kernel;
use crate::zeros::zeros_of;
use som_class_ids::Kind;
use som_class_kernel::Linked;
use som_interp_state::{BodyView, Runtime, Zero};
use som_model::{Block, ClassKey, List, MethodRef, NoMemory, Sig, Text};
use som_objects::Cell;
use som_tables::{ClassNo, MToken, Steps};
use som_trace::{ClassKeys, KeyView};
use som_values::Classes;
use std::alloc::Global;
use std::sync::ledger::Ledger;

impl Classes for Kernel<Linked> {
    ghost use Rattle.som_classmgr.specs.Asking.{answers_of, is_made};

    ghost keys = { λ k. k.classes.keys };

    ghost made = { λ k. is_made k.classes.keys k.parts.made };

    ghost world = { λ k. answers_of k.classes.classes };

    fn descends(&self, class: ClassNo, ancestor: &ClassKey) -> bool {
        let _classes = self.classes();
        match self.class_of(ancestor) {
            Some(ancestor) => self.is_a(class, ancestor),
            None => false,
        }
    }

    fn is_a(&self, class: &ClassKey, ancestor: &ClassKey) -> bool {
        match self.class_of(class) {
            Some(class) => self.descends(class, ancestor),
            None => unreachable!(),
        }
    }

    fn metaclass(&self, class: ClassNo) -> ClassNo {
        let _classes = self.classes();
        self.metaclass(class)
    }

    fn manager(&self) -> ClassNo {
        let _classes = self.classes();
        ClassNo::new(2)
    }
}

impl ClassKeys for Kernel<Linked> {
    ghost known = { λ k. k.classes };

    fn key(&self, class: ClassNo) -> KeyView<'_> {
        self.key(class)
    }

    fn method_name(&self, method: MToken) -> &Text {
        &self.method(method).0.name
    }
}

impl Runtime for Kernel<Linked> {
    ghost use Rattle.som_classmgr.specs.Asking.{linked_of};

    ghost linked = { λ k. linked_of k.classes };

    ghost program = { λ k. k.main };

    fn know(&self) {
        let _classes = self.classes();
    }

    fn main(&self) -> &Block {
        self.main()
    }

    fn reach(&mut self, alloc: Global, class: ClassNo) -> Result<(), NoMemory> {
        self.reach(alloc, class)
    }

    fn number_of(&self, class: &ClassKey) -> ClassNo {
        match self.class_of(class) {
            Some(class) => class,
            None => unreachable!(),
        }
    }

    fn proxy_of(&self, target: &ClassKey) -> ClassNo {
        let classes = self.classes();
        match self.class_of(target) {
            Some(target) => proxy_number(classes, target),
            None => unreachable!(),
        }
    }

    fn inherits(&self, class: ClassNo, ancestor: ClassNo) -> bool {
        self.is_a(class, ancestor)
    }

    fn parents(&self, class: ClassNo) -> &List<ClassNo> {
        self.parents(class)
    }

    fn hooks(&self, class: ClassNo) -> &List<ClassNo> {
        let _classes = self.classes();
        self.hooks(class)
    }

    fn method_token(&self, method: &MethodRef) -> MToken {
        self.method_token(method)
    }

    fn signature(&self, method: MToken) -> &Sig {
        self.method(method).1
    }

    fn find<L: Ledger>(&self, class: ClassNo, name: &Text, steps: &mut Steps<L>) -> Option<MToken> {
        let _classes = self.classes();
        self.find(class, name, steps)
    }

    fn resolve<L: Ledger>(
        &self,
        class: ClassNo,
        method: MToken,
        steps: &mut Steps<L>,
    ) -> BodyView<'_> {
        let _classes = self.classes();
        let body = self.resolve(class, method, steps);
        self.body(body)
    }

    fn find_class(&self, name: &Text, major: i32, minor: i32) -> Option<ClassNo> {
        self.find_class(name, major, minor)
    }

    fn version(&self, class: ClassNo) -> (u32, u32) {
        self.version(class)
    }

    fn place(&self, object: ClassNo, class: ClassNo, variable: u8) -> Option<u32> {
        let classes = self.classes();
        if usize::from(variable) < own_count(classes, class) && self.is_a(object, class) {
            Some(self.data_place(object, self.data_token(class, variable)))
        } else {
            None
        }
    }

    fn variable_cells(&self, class: ClassNo) -> u32 {
        let _classes = self.classes();
        self.variables(class).count()
    }

    fn zero_cells(&self, alloc: Global, class: ClassNo) -> Result<List<Cell>, NoMemory> {
        let classes = self.classes();
        zeros_of(alloc, classes, class, self.variable_cells(class))
    }

    fn is_proxy(&self, class: ClassNo) -> bool {
        matches!(self.classes().kind(class), Kind::Proxy)
    }

    fn zero(&self, class: ClassNo, variable: u8) -> Zero {
        zero_in(self.classes(), class, variable)
    }
}
