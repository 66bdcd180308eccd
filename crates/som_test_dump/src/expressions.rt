//! The trees of expressions.

use crate::lines::Lines;
use som_ast::{ExprText, TypeName, Word};
use som_model::{HostCode, List, NoMemory};

fn host_name(code: HostCode) -> &'static str {
    match code {
        HostCode::Min => "host(min",
        HostCode::Max => "host(max",
        HostCode::And => "host(and",
        HostCode::Or => "host(or",
        HostCode::Xor => "host(xor",
        HostCode::WrapAdd => "host(wrapadd",
    }
}

impl Lines {
    #[cycle(expressions)]
    pub(crate) fn add_expr(&mut self, expr: &ExprText) -> Result<(), NoMemory> {
        match expr {
            ExprText::Number(number) => self.add_number(*number as usize),
            ExprText::Literal(text) => self.add_literal(text.as_slice()),
            ExprText::Boolean(value) => self.add(if *value { "TRUE" } else { "FALSE" }),
            ExprText::Nil => self.add("nil"),
            ExprText::Me => self.add("self"),
            ExprText::Manager => self.add("manager"),
            ExprText::Name(word) => self.add_word(word),
            ExprText::Variable(word) => self.add_part(".", word),
            ExprText::New(word) => self.add_class("new(", word),
            ExprText::Class(word) => self.add_class("class(", word),
            ExprText::Unary { .. }
            | ExprText::Binary { .. }
            | ExprText::Cast { .. }
            | ExprText::Isa { .. }
            | ExprText::Proxy { .. }
            | ExprText::Host { .. } => self.add_compound(expr),
            ExprText::Call { .. } | ExprText::Lookup { .. } | ExprText::Dispatch { .. } => {
                self.add_call(expr)
            }
            ExprText::Parent { .. } | ExprText::Parents { .. } => self.add_parent_call(expr),
        }
    }

    // An expression with expressions in it that is no call, and no other.
    #[cycle(expressions)]
    fn add_compound(&mut self, expr: &ExprText) -> Result<(), NoMemory> {
        match expr {
            ExprText::Unary { op, of } => {
                self.add_operator("[u", *op)?;
                self.add_next(of.get())?;
                self.add("]")
            }
            ExprText::Binary { op, left, right } => {
                self.add_operator("[", *op)?;
                self.add_next(left.get())?;
                self.add_next(right.get())?;
                self.add("]")
            }
            ExprText::Cast { class, of } => self.add_of("as(", class, of.get()),
            ExprText::Isa { class, of } => self.add_of("isa(", class, of.get()),
            ExprText::Proxy { class, of } => self.add_of("proxy(", class, of.get()),
            ExprText::Host { code, a, b } => {
                self.add(host_name(*code))?;
                self.add_next(a.get())?;
                self.add_next(b.get())?;
                self.add(")")
            }
            _ => Ok(()),
        }
    }

    // A call of a method of an object, and no other expression.
    #[cycle(expressions)]
    fn add_call(&mut self, expr: &ExprText) -> Result<(), NoMemory> {
        let (receiver, method, args) = match expr {
            ExprText::Call {
                receiver,
                method,
                args,
            } => {
                self.add("call(")?;
                (receiver, method, args)
            }
            ExprText::Lookup {
                result,
                receiver,
                method,
                args,
            } => {
                self.add_named("lookup(", result)?;
                (receiver, method, args)
            }
            ExprText::Dispatch {
                result,
                receiver,
                method,
                args,
            } => {
                self.add_named("dispatch(", result)?;
                (receiver, method, args)
            }
            _ => return Ok(()),
        };
        self.add_on(receiver.get(), method)?;
        self.add_args(args)
    }

    // A call of the method of a parent, or of the parents, and no other expression.
    #[cycle(expressions)]
    fn add_parent_call(&mut self, expr: &ExprText) -> Result<(), NoMemory> {
        match expr {
            ExprText::Parent {
                parent,
                method,
                args,
            } => {
                self.add_part("parent(", parent)?;
                self.add_part(" ", method)?;
                self.add_args(args)
            }
            ExprText::Parents { method, args } => {
                self.add_part("parents(", method)?;
                self.add_args(args)
            }
            _ => Ok(()),
        }
    }

    // An operator goes by its number.
    fn add_operator(&mut self, form: &str, op: u8) -> Result<(), NoMemory> {
        self.add(form)?;
        self.add_number(op as usize)
    }

    fn add_class(&mut self, form: &str, class: &Word) -> Result<(), NoMemory> {
        self.add_part(form, class)?;
        self.add(")")
    }

    fn add_named(&mut self, form: &str, outcome: &Option<TypeName>) -> Result<(), NoMemory> {
        self.add(form)?;
        self.add_outcome(outcome)
    }

    // A part of an expression, after a blank.
    #[cycle(expressions)]
    fn add_next(&mut self, part: &ExprText) -> Result<(), NoMemory> {
        self.add(" ")?;
        self.add_expr(part)
    }

    // A form of a class and an expression.
    #[cycle(expressions)]
    fn add_of(&mut self, form: &str, class: &Word, of: &ExprText) -> Result<(), NoMemory> {
        self.add_part(form, class)?;
        self.add_next(of)?;
        self.add(")")
    }

    // What a method is called on, and the method.
    #[cycle(expressions)]
    fn add_on(&mut self, receiver: &ExprText, method: &Word) -> Result<(), NoMemory> {
        self.add_expr(receiver)?;
        self.add_part(" ", method)
    }

    // Arguments, and the end of a call.
    #[cycle(expressions)]
    fn add_args(&mut self, args: &List<ExprText>) -> Result<(), NoMemory> {
        for arg in args.as_slice() {
            self.add_next(arg)?;
        }
        self.add(")")
    }
}
