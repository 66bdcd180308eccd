//! The lines of operators, from casts to whole expressions, and the reader of each line.

ghost use Rattle.som_body.specs.ExpressionInner.{Reads, IsLow, operators_of, operand_of};
ghost use Rattle.som_body.specs.Reading as spec;
ghost use Rattle.som_model.specs.declared.limits.TheConstants.{MAX_NESTING};
ghost use Rattle.som_parse.specs.Answer.{Answers};
ghost use Rattle.som_parse.specs.Readers.{repeat};
ghost use Rattle.som_parse.specs.Seen.{text_at};
ghost use Rattle.std.specs.Prelude.{◌≡◌, ◌≤◌, ◌+◌, IfOk};

use crate::begins::{begins, operand, operator};
use crate::level::{Line, Tall};
use crate::operators::{MINUS, NOT};
use crate::rules::Rules;
use crate::word::name;
use som_ast::ExprText;
use som_lex::Tokens;
use som_model::NoMemory;
use som_parse::{Cursor, Key, Sign, Stop, Turn};
use std::alloc::Global;

fn combined(alloc: Global, op: u8, first: Tall, second: Tall) -> Result<Tall, NoMemory>
    requires first { first.height ≤ MAX_NESTING + 1 }
    requires second { second.height ≤ MAX_NESTING + 1 }
    ensures { IfOk result (λ a. a ≡ spec.combined op first second) }
{
    let height = first.height.max(second.height) + 1;
    let (left, right) = (first.tree, second.tree);
    Tall::new(alloc, ExprText::Binary { op, left, right }, height)
}

// An operator of one operand.
fn changed(alloc: Global, op: u8, operand: Tall) -> Result<Tall, NoMemory>
    requires { operand.height ≤ MAX_NESTING + 1 }
    ensures { IfOk result (λ a. a ≡ spec.tall (ExprText.Unary op operand.tree) (operand.height + 1)) }
{
    let Tall { tree, height } = operand;
    Tall::new(alloc, ExprText::Unary { op, of: tree }, height + 1)
}

impl<'t, F: Fn(Global, &Tokens, &mut Cursor<'_>, usize, Line) -> Result<Tall, Stop>> Rules<'t, F> {
    fn next_cast(&self, left: &mut Cursor<'_>, so_far: Tall) -> Result<Turn<Tall, Tall>, Stop>
        requires depth { self.now.depth ≤ MAX_NESTING }
        requires low { so_far.height ≤ self.now.depth + 1 }
        ensures reads { Answers (spec.cast_step (text_at self.now.tokens.now) (spec.at (text_at self.now.tokens.now) self.now.depth) (self.now.depth + 1) so_far left.old.rest.now) result left.new.rest.now }
        ensures low { IfOk result (IsLow (self.now.depth + 1)) }
    {
        if !left.sees_word(Key::As) {
            return Ok(Turn::Done(so_far));
        }
        if !self.has_room(so_far.height) {
            return Err(Stop::Nesting);
        }
        left.skip();
        let class = name(self.alloc, self.tokens, left)?;
        let Tall { tree, height } = so_far;
        let whole = Tall::new(self.alloc, ExprText::Cast { class, of: tree }, height + 1)?;
        Ok(Turn::More(whole))
    }

    #[tactic(auto, unfolding(crate::specs::Reading::cast, som_parse::specs::Readers::repeat))]
    fn cast(&self, left: &mut Cursor<'_>) -> Result<Tall, Stop>
        requires inner { Reads self.now.tokens.now self.now.depth (F.pre self.now.inner) (F.post self.now.inner) }
        requires depth { self.now.depth ≤ MAX_NESTING }
        ensures reads { Answers (spec.cast (text_at self.now.tokens.now) (spec.at (text_at self.now.tokens.now) self.now.depth) (self.now.depth + 1) left.old.rest.now) result left.new.rest.now }
        ensures low { IfOk result (λ a. a.height ≤ self.now.depth + 1) }
    {
        let mut so_far = self.postfix(left)?;
        for _turn in 0..left.rest.len() + 1 {
            match self.next_cast(left, so_far)? {
                Turn::More(more) => so_far = more,
                Turn::Done(whole) => return Ok(whole),
            }
        }
        Err(Stop::Syntax)
    }

    #[tactic(auto, unfolding(crate::specs::Reading::unary))]
    fn unary(&self, left: &mut Cursor<'_>) -> Result<Tall, Stop>
        requires inner { Reads self.now.tokens.now self.now.depth (F.pre self.now.inner) (F.post self.now.inner) }
        requires depth { self.now.depth ≤ MAX_NESTING }
        ensures reads { Answers (spec.unary (text_at self.now.tokens.now) (spec.at (text_at self.now.tokens.now) self.now.depth) (self.now.depth + 1) left.old.rest.now) result left.new.rest.now }
        ensures low { IfOk result (λ a. a.height ≤ self.now.depth + 1) }
    {
        if !left.sees(Sign::Minus) {
            return self.cast(left);
        }
        left.skip();
        let operand = self.below(left, Line::Unary)?;
        let whole = changed(self.alloc, MINUS, operand)?;
        Ok(whole)
    }

    fn operation(
        &self,
        left: &mut Cursor<'_>,
        line: Line,
        so_far: Tall,
    ) -> Result<Turn<Tall, Tall>, Stop>
        requires inner { Reads self.now.tokens.now self.now.depth (F.pre self.now.inner) (F.post self.now.inner) }
        requires depth { self.now.depth ≤ MAX_NESTING }
        requires low { so_far.height ≤ self.now.depth + 1 }
        ensures reads { Answers (spec.operation (text_at self.now.tokens.now) (spec.at (text_at self.now.tokens.now) self.now.depth) (operators_of line) (operand_of line) (self.now.depth + 1) so_far left.old.rest.now) result left.new.rest.now }
        ensures low { IfOk result (IsLow (self.now.depth + 1)) }
    {
        let Some(op) = operator(line, left.peek()) else {
            return Ok(Turn::Done(so_far));
        };
        if !self.has_room(so_far.height) {
            return Err(Stop::Nesting);
        }
        left.skip();
        let next = self.below(left, operand(line))?;
        let whole = combined(self.alloc, op, so_far, next)?;
        Ok(Turn::More(whole))
    }

    // The operators of a line on what was read, grouped from the left.
    #[tactic(auto, unfolding(som_parse::specs::Readers::repeat))]
    fn operations(&self, left: &mut Cursor<'_>, line: Line, first: Tall) -> Result<Tall, Stop>
        requires inner { Reads self.now.tokens.now self.now.depth (F.pre self.now.inner) (F.post self.now.inner) }
        requires depth { self.now.depth ≤ MAX_NESTING }
        requires low { first.height ≤ self.now.depth + 1 }
        ensures reads { Answers (repeat (spec.operation (text_at self.now.tokens.now) (spec.at (text_at self.now.tokens.now) self.now.depth) (operators_of line) (operand_of line) (self.now.depth + 1)) first left.old.rest.now) result left.new.rest.now }
        ensures low { IfOk result (λ a. a.height ≤ self.now.depth + 1) }
    {
        let mut so_far = first;
        for _turn in 0..left.rest.len() + 1 {
            match self.operation(left, line, so_far)? {
                Turn::More(more) => so_far = more,
                Turn::Done(whole) => return Ok(whole),
            }
        }
        Err(Stop::Syntax)
    }

    #[tactic(auto, unfolding(crate::specs::Reading::prod))]
    fn prod(&self, left: &mut Cursor<'_>) -> Result<Tall, Stop>
        requires inner { Reads self.now.tokens.now self.now.depth (F.pre self.now.inner) (F.post self.now.inner) }
        requires depth { self.now.depth ≤ MAX_NESTING }
        ensures reads { Answers (spec.prod (text_at self.now.tokens.now) (spec.at (text_at self.now.tokens.now) self.now.depth) (self.now.depth + 1) left.old.rest.now) result left.new.rest.now }
        ensures low { IfOk result (λ a. a.height ≤ self.now.depth + 1) }
    {
        let first = self.unary(left)?;
        self.operations(left, Line::Prod, first)
    }

    #[tactic(auto, unfolding(crate::specs::Reading::sum))]
    fn sum(&self, left: &mut Cursor<'_>) -> Result<Tall, Stop>
        requires inner { Reads self.now.tokens.now self.now.depth (F.pre self.now.inner) (F.post self.now.inner) }
        requires depth { self.now.depth ≤ MAX_NESTING }
        ensures reads { Answers (spec.sum (text_at self.now.tokens.now) (spec.at (text_at self.now.tokens.now) self.now.depth) (self.now.depth + 1) left.old.rest.now) result left.new.rest.now }
        ensures low { IfOk result (λ a. a.height ≤ self.now.depth + 1) }
    {
        let first = self.prod(left)?;
        self.operations(left, Line::Sum, first)
    }

    // At most one comparison.
    fn compared(&self, left: &mut Cursor<'_>, first: Tall) -> Result<Tall, Stop>
        requires inner { Reads self.now.tokens.now self.now.depth (F.pre self.now.inner) (F.post self.now.inner) }
        requires depth { self.now.depth ≤ MAX_NESTING }
        requires low { first.height ≤ self.now.depth + 1 }
        ensures reads { Answers (spec.compared (text_at self.now.tokens.now) (spec.at (text_at self.now.tokens.now) self.now.depth) (self.now.depth + 1) first left.old.rest.now) result left.new.rest.now }
        ensures low { IfOk result (λ a. a.height ≤ self.now.depth + 1) }
    {
        let Some(op) = operator(Line::Cmp, left.peek()) else {
            return Ok(first);
        };
        if !self.has_room(first.height) {
            return Err(Stop::Nesting);
        }
        left.skip();
        let second = self.below(left, Line::Sum)?;
        let whole = combined(self.alloc, op, first, second)?;
        Ok(whole)
    }

    #[tactic(auto, unfolding(crate::specs::Reading::cmp))]
    fn cmp(&self, left: &mut Cursor<'_>) -> Result<Tall, Stop>
        requires inner { Reads self.now.tokens.now self.now.depth (F.pre self.now.inner) (F.post self.now.inner) }
        requires depth { self.now.depth ≤ MAX_NESTING }
        ensures reads { Answers (spec.cmp (text_at self.now.tokens.now) (spec.at (text_at self.now.tokens.now) self.now.depth) (self.now.depth + 1) left.old.rest.now) result left.new.rest.now }
        ensures low { IfOk result (λ a. a.height ≤ self.now.depth + 1) }
    {
        let first = self.sum(left)?;
        self.compared(left, first)
    }

    #[tactic(auto, unfolding(crate::specs::Reading::neg))]
    fn neg(&self, left: &mut Cursor<'_>) -> Result<Tall, Stop>
        requires inner { Reads self.now.tokens.now self.now.depth (F.pre self.now.inner) (F.post self.now.inner) }
        requires depth { self.now.depth ≤ MAX_NESTING }
        ensures reads { Answers (spec.neg (text_at self.now.tokens.now) (spec.at (text_at self.now.tokens.now) self.now.depth) (self.now.depth + 1) left.old.rest.now) result left.new.rest.now }
        ensures low { IfOk result (λ a. a.height ≤ self.now.depth + 1) }
    {
        if !left.sees_word(Key::Not) {
            return self.cmp(left);
        }
        left.skip();
        let operand = self.below(left, Line::Neg)?;
        let whole = changed(self.alloc, NOT, operand)?;
        Ok(whole)
    }

    #[tactic(auto, unfolding(crate::specs::Reading::conj))]
    fn conj(&self, left: &mut Cursor<'_>) -> Result<Tall, Stop>
        requires inner { Reads self.now.tokens.now self.now.depth (F.pre self.now.inner) (F.post self.now.inner) }
        requires depth { self.now.depth ≤ MAX_NESTING }
        ensures reads { Answers (spec.conj (text_at self.now.tokens.now) (spec.at (text_at self.now.tokens.now) self.now.depth) (self.now.depth + 1) left.old.rest.now) result left.new.rest.now }
        ensures low { IfOk result (λ a. a.height ≤ self.now.depth + 1) }
    {
        let first = self.neg(left)?;
        self.operations(left, Line::Conj, first)
    }

    #[tactic(auto, unfolding(crate::specs::Reading::expression))]
    fn expression(&self, left: &mut Cursor<'_>) -> Result<Tall, Stop>
        requires inner { Reads self.now.tokens.now self.now.depth (F.pre self.now.inner) (F.post self.now.inner) }
        requires depth { self.now.depth ≤ MAX_NESTING }
        ensures reads { Answers (spec.expression (text_at self.now.tokens.now) (spec.at (text_at self.now.tokens.now) self.now.depth) (self.now.depth + 1) left.old.rest.now) result left.new.rest.now }
        ensures low { IfOk result (λ a. a.height ≤ self.now.depth + 1) }
    {
        let first = self.conj(left)?;
        self.operations(left, Line::Expr, first)
    }

    fn read(&self, left: &mut Cursor<'_>, line: Line) -> Result<Tall, Stop>
        requires inner { Reads self.now.tokens.now self.now.depth (F.pre self.now.inner) (F.post self.now.inner) }
        requires depth { self.now.depth ≤ MAX_NESTING }
        ensures reads { Answers (spec.read (text_at self.now.tokens.now) (spec.at (text_at self.now.tokens.now) self.now.depth) (self.now.depth + 1) line left.old.rest.now) result left.new.rest.now }
        ensures low { IfOk result (λ a. a.height ≤ self.now.depth + 1) }
    {
        match line {
            Line::Primary => self.primary(left),
            Line::Postfix => self.postfix(left),
            Line::Cast => self.cast(left),
            Line::Unary => self.unary(left),
            Line::Prod => self.prod(left),
            Line::Sum => self.sum(left),
            Line::Cmp => self.cmp(left),
            Line::Neg => self.neg(left),
            Line::Conj => self.conj(left),
            Line::Expr => self.expression(left),
        }
    }
}

/// A line where `depth` levels are left.
pub fn line_at(
    alloc: Global,
    tokens: &Tokens,
    left: &mut Cursor<'_>,
    depth: usize,
    line: Line,
) -> Result<Tall, Stop>
    requires depth { depth ≤ MAX_NESTING }
    ensures reads { Answers (spec.at (text_at tokens.now) depth line left.old.rest.now) result left.new.rest.now }
    ensures low { IfOk result (λ a. a.height ≤ depth) }
{
    if depth == 0 {
        return if begins(line, left.peek()) {
            Err(Stop::Nesting)
        } else {
            Err(Stop::Syntax)
        };
    }
    Rules {
        alloc,
        tokens,
        depth: depth - 1,
        inner: line_at,
    }
    .read(left, line)
}
