//! Expressions that aren't made of others by an operator.

ghost use Rattle.som_body.specs.ExpressionInner.{Reads};
ghost use Rattle.som_body.specs.Reading as spec;
ghost use Rattle.som_model.specs.declared.limits.TheConstants.{MAX_NESTING};
ghost use Rattle.som_parse.specs.Answer.{Answers};
ghost use Rattle.som_parse.specs.Seen.{text_at};
ghost use Rattle.std.specs.Prelude.{◌≡◌, ◌≤◌, ◌+◌, max, IfOk};

use crate::level::{Given, Line, Tall};
use crate::operators::{LENGTH, TEXT};
use crate::rules::Rules;
use crate::word::{any_word, atom, host, name};
use som_ast::ExprText;
use som_lex::Tokens;
use som_model::{HostCode, NoMemory};
use som_parse::{Cursor, Key, Sign, Stop};
use std::alloc::Global;

fn hosted(alloc: Global, code: HostCode, first: Tall, second: Tall) -> Result<Tall, NoMemory>
    requires first { first.height ≤ MAX_NESTING + 1 }
    requires second { second.height ≤ MAX_NESTING + 1 }
    ensures { IfOk result (λ call. call ≡ spec.tall (ExprText.Host code first.tree second.tree) (max first.height second.height + 1)) }
{
    let height = first.height.max(second.height) + 1;
    let (a, b) = (first.tree, second.tree);
    Tall::new(alloc, ExprText::Host { code, a, b }, height)
}

impl<'t, F: Fn(Global, &Tokens, &mut Cursor<'_>, usize, Line) -> Result<Tall, Stop>> Rules<'t, F> {
    // After `somThis`.
    #[tactic(auto, unfolding(crate::specs::Reading::own_variable))]
    fn own_variable(&self, left: &mut Cursor<'_>) -> Result<Tall, Stop>
        ensures reads { Answers (spec.own_variable (text_at self.now.tokens.now) (spec.at (text_at self.now.tokens.now) self.now.depth) left.old.rest.now) result left.new.rest.now }
        ensures low { IfOk result (λ a. a.height ≤ self.now.depth + 1) }
    {
        left.expect(Sign::Dot)?;
        let variable = any_word(self.alloc, self.tokens, left)?;
        let whole = Tall::new(self.alloc, ExprText::Variable(variable), 1)?;
        Ok(whole)
    }

    // After `(`. A pair of parentheses is a level.
    #[tactic(auto, unfolding(crate::specs::Reading::grouped))]
    fn grouped(&self, left: &mut Cursor<'_>) -> Result<Tall, Stop>
        requires inner { Reads self.now.tokens.now self.now.depth (F.pre self.now.inner) (F.post self.now.inner) }
        requires depth { self.now.depth ≤ MAX_NESTING }
        ensures reads { Answers (spec.grouped (text_at self.now.tokens.now) (spec.at (text_at self.now.tokens.now) self.now.depth) left.old.rest.now) result left.new.rest.now }
        ensures low { IfOk result (λ a. a.height ≤ self.now.depth + 1) }
    {
        let Tall { tree, height } = self.below(left, Line::Expr)?;
        left.expect(Sign::Close)?;
        Ok(Tall {
            tree,
            height: height + 1,
        })
    }

    // After `length` or `text`.
    #[tactic(auto, unfolding(crate::specs::Reading::measured))]
    fn measured(&self, left: &mut Cursor<'_>, op: u8) -> Result<Tall, Stop>
        requires inner { Reads self.now.tokens.now self.now.depth (F.pre self.now.inner) (F.post self.now.inner) }
        requires depth { self.now.depth ≤ MAX_NESTING }
        ensures reads { Answers (spec.measured (text_at self.now.tokens.now) (spec.at (text_at self.now.tokens.now) self.now.depth) op left.old.rest.now) result left.new.rest.now }
        ensures low { IfOk result (λ a. a.height ≤ self.now.depth + 1) }
    {
        left.expect(Sign::Open)?;
        let Tall { tree, height } = self.below(left, Line::Expr)?;
        left.expect(Sign::Close)?;
        let whole = Tall::new(self.alloc, ExprText::Unary { op, of: tree }, height + 1)?;
        Ok(whole)
    }

    #[tactic(auto, unfolding(crate::specs::Reading::new_object))]
    fn new_object(&self, left: &mut Cursor<'_>) -> Result<Tall, Stop>
        ensures reads { Answers (spec.new_object (text_at self.now.tokens.now) (spec.at (text_at self.now.tokens.now) self.now.depth) left.old.rest.now) result left.new.rest.now }
        ensures low { IfOk result (λ a. a.height ≤ self.now.depth + 1) }
    {
        let class = name(self.alloc, self.tokens, left)?;
        let whole = Tall::new(self.alloc, ExprText::New(class), 1)?;
        Ok(whole)
    }

    #[tactic(auto, unfolding(crate::specs::Reading::class_object))]
    fn class_object(&self, left: &mut Cursor<'_>) -> Result<Tall, Stop>
        ensures reads { Answers (spec.class_object (text_at self.now.tokens.now) (spec.at (text_at self.now.tokens.now) self.now.depth) left.old.rest.now) result left.new.rest.now }
        ensures low { IfOk result (λ a. a.height ≤ self.now.depth + 1) }
    {
        let class = name(self.alloc, self.tokens, left)?;
        let whole = Tall::new(self.alloc, ExprText::Class(class), 1)?;
        Ok(whole)
    }

    #[tactic(auto, unfolding(crate::specs::Reading::isa))]
    fn isa(&self, left: &mut Cursor<'_>) -> Result<Tall, Stop>
        requires inner { Reads self.now.tokens.now self.now.depth (F.pre self.now.inner) (F.post self.now.inner) }
        requires depth { self.now.depth ≤ MAX_NESTING }
        ensures reads { Answers (spec.isa (text_at self.now.tokens.now) (spec.at (text_at self.now.tokens.now) self.now.depth) left.old.rest.now) result left.new.rest.now }
        ensures low { IfOk result (λ a. a.height ≤ self.now.depth + 1) }
    {
        left.expect(Sign::Open)?;
        let Tall { tree, height } = self.below(left, Line::Expr)?;
        left.expect(Sign::Comma)?;
        let class = name(self.alloc, self.tokens, left)?;
        left.expect(Sign::Close)?;
        let whole = Tall::new(self.alloc, ExprText::Isa { class, of: tree }, height + 1)?;
        Ok(whole)
    }

    #[tactic(auto, unfolding(crate::specs::Reading::proxy))]
    fn proxy(&self, left: &mut Cursor<'_>) -> Result<Tall, Stop>
        requires inner { Reads self.now.tokens.now self.now.depth (F.pre self.now.inner) (F.post self.now.inner) }
        requires depth { self.now.depth ≤ MAX_NESTING }
        ensures reads { Answers (spec.proxy (text_at self.now.tokens.now) (spec.at (text_at self.now.tokens.now) self.now.depth) left.old.rest.now) result left.new.rest.now }
        ensures low { IfOk result (λ a. a.height ≤ self.now.depth + 1) }
    {
        left.expect(Sign::Open)?;
        let class = name(self.alloc, self.tokens, left)?;
        left.expect(Sign::Comma)?;
        let Tall { tree, height } = self.below(left, Line::Expr)?;
        left.expect(Sign::Close)?;
        let whole = Tall::new(self.alloc, ExprText::Proxy { class, of: tree }, height + 1)?;
        Ok(whole)
    }

    #[tactic(auto, unfolding(crate::specs::Reading::host_call))]
    fn host_call(&self, left: &mut Cursor<'_>) -> Result<Tall, Stop>
        requires inner { Reads self.now.tokens.now self.now.depth (F.pre self.now.inner) (F.post self.now.inner) }
        requires depth { self.now.depth ≤ MAX_NESTING }
        ensures reads { Answers (spec.host_call (text_at self.now.tokens.now) (spec.at (text_at self.now.tokens.now) self.now.depth) left.old.rest.now) result left.new.rest.now }
        ensures low { IfOk result (λ a. a.height ≤ self.now.depth + 1) }
    {
        let code = host(self.tokens, left)?;
        left.expect(Sign::Open)?;
        let first = self.below(left, Line::Expr)?;
        left.expect(Sign::Comma)?;
        let second = self.below(left, Line::Expr)?;
        left.expect(Sign::Close)?;
        let call = hosted(self.alloc, code, first, second)?;
        Ok(call)
    }

    #[tactic(auto, unfolding(crate::specs::Reading::parent_call))]
    fn parent_call(&self, left: &mut Cursor<'_>) -> Result<Tall, Stop>
        requires inner { Reads self.now.tokens.now self.now.depth (F.pre self.now.inner) (F.post self.now.inner) }
        requires depth { self.now.depth ≤ MAX_NESTING }
        ensures reads { Answers (spec.parent_call (text_at self.now.tokens.now) (spec.at (text_at self.now.tokens.now) self.now.depth) left.old.rest.now) result left.new.rest.now }
        ensures low { IfOk result (λ a. a.height ≤ self.now.depth + 1) }
    {
        let parent = name(self.alloc, self.tokens, left)?;
        left.expect(Sign::Dot)?;
        let method = any_word(self.alloc, self.tokens, left)?;
        let Given { args, height } = self.arguments(left)?;
        let tree = ExprText::Parent {
            parent,
            method,
            args,
        };
        let whole = Tall::new(self.alloc, tree, height + 1)?;
        Ok(whole)
    }

    #[tactic(auto, unfolding(crate::specs::Reading::parents_call))]
    fn parents_call(&self, left: &mut Cursor<'_>) -> Result<Tall, Stop>
        requires inner { Reads self.now.tokens.now self.now.depth (F.pre self.now.inner) (F.post self.now.inner) }
        requires depth { self.now.depth ≤ MAX_NESTING }
        ensures reads { Answers (spec.parents_call (text_at self.now.tokens.now) (spec.at (text_at self.now.tokens.now) self.now.depth) left.old.rest.now) result left.new.rest.now }
        ensures low { IfOk result (λ a. a.height ≤ self.now.depth + 1) }
    {
        left.expect(Sign::Dot)?;
        let method = any_word(self.alloc, self.tokens, left)?;
        let Given { args, height } = self.arguments(left)?;
        let whole = Tall::new(self.alloc, ExprText::Parents { method, args }, height + 1)?;
        Ok(whole)
    }

    // A form that begins with a word of its own.
    #[tactic(auto, unfolding(crate::specs::Reading::form))]
    fn form(&self, left: &mut Cursor<'_>) -> Result<Tall, Stop>
        requires inner { Reads self.now.tokens.now self.now.depth (F.pre self.now.inner) (F.post self.now.inner) }
        requires depth { self.now.depth ≤ MAX_NESTING }
        ensures reads { Answers (spec.form (text_at self.now.tokens.now) (spec.at (text_at self.now.tokens.now) self.now.depth) left.old.rest.now) result left.new.rest.now }
        ensures low { IfOk result (λ a. a.height ≤ self.now.depth + 1) }
    {
        if left.sees_word(Key::Isa) {
            left.skip();
            return self.isa(left);
        }
        if left.sees_word(Key::Proxy) {
            left.skip();
            return self.proxy(left);
        }
        if left.sees_word(Key::Host) {
            left.skip();
            return self.host_call(left);
        }
        if left.sees_word(Key::Parent) {
            left.skip();
            return self.parent_call(left);
        }
        if left.sees_word(Key::Parents) {
            left.skip();
            return self.parents_call(left);
        }
        Err(Stop::Syntax)
    }

    #[tactic(auto, unfolding(crate::specs::Reading::compound))]
    fn compound(&self, left: &mut Cursor<'_>) -> Result<Tall, Stop>
        requires inner { Reads self.now.tokens.now self.now.depth (F.pre self.now.inner) (F.post self.now.inner) }
        requires depth { self.now.depth ≤ MAX_NESTING }
        ensures reads { Answers (spec.compound (text_at self.now.tokens.now) (spec.at (text_at self.now.tokens.now) self.now.depth) left.old.rest.now) result left.new.rest.now }
        ensures low { IfOk result (λ a. a.height ≤ self.now.depth + 1) }
    {
        if left.sees(Sign::Open) {
            left.skip();
            return self.grouped(left);
        }
        if left.sees_word(Key::SomThis) {
            left.skip();
            return self.own_variable(left);
        }
        if left.sees_word(Key::Length) {
            left.skip();
            return self.measured(left, LENGTH);
        }
        if left.sees_word(Key::TextOf) {
            left.skip();
            return self.measured(left, TEXT);
        }
        if left.sees_word(Key::New) {
            left.skip();
            return self.new_object(left);
        }
        if left.sees_word(Key::Class) {
            left.skip();
            return self.class_object(left);
        }
        self.form(left)
    }

    #[tactic(auto, unfolding(crate::specs::Reading::primary))]
    pub(crate) fn primary(&self, left: &mut Cursor<'_>) -> Result<Tall, Stop>
        requires inner { Reads self.now.tokens.now self.now.depth (F.pre self.now.inner) (F.post self.now.inner) }
        requires depth { self.now.depth ≤ MAX_NESTING }
        ensures reads { Answers (spec.primary (text_at self.now.tokens.now) (spec.at (text_at self.now.tokens.now) self.now.depth) left.old.rest.now) result left.new.rest.now }
        ensures low { IfOk result (λ a. a.height ≤ self.now.depth + 1) }
    {
        match atom(self.alloc, self.tokens, left.peek())? {
            Some(tree) => {
                left.skip();
                let whole = Tall::new(self.alloc, tree, 1)?;
                Ok(whole)
            }
            None => self.compound(left),
        }
    }
}
