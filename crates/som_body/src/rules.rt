//! The rules of expressions. They take the reader of the lines one level down as a parameter, so that each is proved by itself.

ghost use Rattle.som_body.specs.ExpressionInner.{Reads, AreLow};
ghost use Rattle.som_body.specs.Reading as spec;
ghost use Rattle.som_parse.specs.Answer.{Answers};
ghost use Rattle.som_parse.specs.Readers.{repeat};
ghost use Rattle.som_parse.specs.Seen.{text_at};
ghost use Rattle.std.specs.Prelude.{◌≡◌, ◌≤◌, ◌+◌, ℕ, nat_le, IfOk};

use crate::level::{Given, Line, Tall};
use crate::lists::with_item;
use som_lex::Tokens;
use som_model::List;
use som_parse::{Cursor, Sign, Stop, Turn};
use std::alloc::Global;

/// The rules where `depth` levels are left below an expression, and `inner` reads the lines there.
#[derive(Clone, Copy)]
pub(crate) struct Rules<'t, F> {
    pub(crate) alloc: Global,
    pub(crate) tokens: &'t Tokens,
    pub(crate) depth: usize,
    pub(crate) inner: F,
}

impl<'t, F: Fn(Global, &Tokens, &mut Cursor<'_>, usize, Line) -> Result<Tall, Stop>> Rules<'t, F> {
    /// Reads a line of the grammar with one level less left.
    pub(crate) fn below(&self, left: &mut Cursor<'_>, line: Line) -> Result<Tall, Stop>
        requires inner { Reads self.now.tokens.now self.now.depth (F.pre self.now.inner) (F.post self.now.inner) }
        ensures reads { Answers (spec.at (text_at self.now.tokens.now) self.now.depth line left.old.rest.now) result left.new.rest.now }
        ensures low { IfOk result (λ a. a.height ≤ self.now.depth) }
    {
        (self.inner)(self.alloc, self.tokens, left, self.depth, line)
    }

    /// Whether what takes so many levels may become an operand.
    pub(crate) fn has_room(&self, height: usize) -> bool
        ensures { result ≡ nat_le (height + 1) (self.now.depth + 1) }
    {
        height <= self.depth
    }

    fn next_argument(
        &self,
        left: &mut Cursor<'_>,
        so_far: Given,
    ) -> Result<Turn<Given, Given>, Stop>
        requires inner { Reads self.now.tokens.now self.now.depth (F.pre self.now.inner) (F.post self.now.inner) }
        requires low { so_far.height ≤ self.now.depth }
        ensures reads { Answers (spec.argument (text_at self.now.tokens.now) (spec.at (text_at self.now.tokens.now) self.now.depth) so_far left.old.rest.now) result left.new.rest.now }
        ensures low { IfOk result (AreLow self.now.depth) }
    {
        if !left.sees(Sign::Comma) {
            return Ok(Turn::Done(so_far));
        }
        left.skip();
        let Tall { tree, height } = self.below(left, Line::Expr)?;
        let Given {
            args,
            height: tallest,
        } = so_far;
        let args = with_item(args, tree.into_inner())?;
        Ok(Turn::More(Given {
            args,
            height: tallest.max(height),
        }))
    }

    /// At least one argument, with commas between.
    #[tactic(auto, unfolding(crate::specs::Reading::arguments_listed, som_parse::specs::Readers::repeat))]
    fn some_arguments(&self, left: &mut Cursor<'_>) -> Result<Given, Stop>
        requires inner { Reads self.now.tokens.now self.now.depth (F.pre self.now.inner) (F.post self.now.inner) }
        ensures reads { Answers (spec.arguments_listed (text_at self.now.tokens.now) (spec.at (text_at self.now.tokens.now) self.now.depth) left.old.rest.now) result left.new.rest.now }
        ensures low { IfOk result (λ g. g.height ≤ self.now.depth) }
    {
        let Tall { tree, height } = self.below(left, Line::Expr)?;
        let args = with_item(List::new(self.alloc), tree.into_inner())?;
        let mut so_far = Given { args, height };
        for _turn in 0..left.rest.len() + 1 {
            match self.next_argument(left, so_far)? {
                Turn::More(more) => so_far = more,
                Turn::Done(all) => return Ok(all),
            }
        }
        Err(Stop::Syntax)
    }

    #[tactic(auto, unfolding(crate::specs::Reading::arguments))]
    pub(crate) fn arguments(&self, left: &mut Cursor<'_>) -> Result<Given, Stop>
        requires inner { Reads self.now.tokens.now self.now.depth (F.pre self.now.inner) (F.post self.now.inner) }
        ensures reads { Answers (spec.arguments (text_at self.now.tokens.now) (spec.at (text_at self.now.tokens.now) self.now.depth) left.old.rest.now) result left.new.rest.now }
        ensures low { IfOk result (λ g. g.height ≤ self.now.depth) }
    {
        left.expect(Sign::Open)?;
        if left.sees(Sign::Close) {
            left.skip();
            return Ok(Given {
                args: List::new(self.alloc),
                height: 0,
            });
        }
        let found = self.some_arguments(left)?;
        left.expect(Sign::Close)?;
        Ok(found)
    }
}
