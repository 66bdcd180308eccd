//! The trees of bodies and mains.

use crate::lines::Lines;
use som_ast::{BlockText, BodyFile, BodyText, ExprText, MainFile, StmtText, Word};
use som_model::NoMemory;

impl Lines {
    /// Adds a line for each body.
    pub(crate) fn add_bodies(&mut self, file: &BodyFile) -> Result<(), NoMemory> {
        for body in file.bodies.as_slice() {
            self.add_body(body)?;
            self.end()?;
        }
        Ok(())
    }

    /// Adds the line of a main.
    pub(crate) fn add_main(&mut self, file: &MainFile) -> Result<(), NoMemory> {
        self.add_block(&file.block)?;
        self.end()
    }

    fn add_body(&mut self, body: &BodyText) -> Result<(), NoMemory> {
        self.add_word(&body.class)?;
        self.add_part("::", &body.method)?;
        self.add("(")?;
        for param in body.params.as_slice() {
            self.add_part(" ", param)?;
        }
        self.add(")")?;
        self.add_block(&body.block)
    }

    #[cycle(blocks)]
    fn add_block(&mut self, block: &BlockText) -> Result<(), NoMemory> {
        self.add("{")?;
        for statement in block.statements.as_slice() {
            self.add_stmt(statement)?;
        }
        self.add("}")
    }

    #[cycle(blocks)]
    fn add_stmt(&mut self, stmt: &StmtText) -> Result<(), NoMemory> {
        match stmt {
            StmtText::Var { name, kind, value } => {
                self.add_part("var ", name)?;
                self.add(" ")?;
                self.add_type(kind)?;
                self.add_value("= ", value)
            }
            StmtText::Set { name, value } => self.add_set("", name, value),
            StmtText::SetVariable { name, value } => self.add_set(".", name, value),
            StmtText::If {
                condition,
                then,
                other,
            } => {
                self.add_condition("if ", condition)?;
                self.add_block(then)?;
                self.add_block(other)
            }
            StmtText::While { condition, block } => {
                self.add_condition("while ", condition)?;
                self.add_block(block)
            }
            StmtText::Return { value: None } => self.add("return;"),
            StmtText::Return { value: Some(value) } => self.add_value("return ", value),
            StmtText::Print { value } => self.add_value("print ", value),
            StmtText::Free { value } => self.add_value("free ", value),
            StmtText::Call { call } => self.add_value("", call),
        }
    }

    fn add_set(&mut self, form: &str, name: &Word, value: &ExprText) -> Result<(), NoMemory> {
        self.add_part(form, name)?;
        self.add_value(" = ", value)
    }

    fn add_condition(&mut self, form: &str, condition: &ExprText) -> Result<(), NoMemory> {
        self.add(form)?;
        self.add_expr(condition)?;
        self.add(" ")
    }

    // The last expression of a statement, and its end.
    fn add_value(&mut self, form: &str, value: &ExprText) -> Result<(), NoMemory> {
        self.add(form)?;
        self.add_expr(value)?;
        self.add(";")
    }
}
