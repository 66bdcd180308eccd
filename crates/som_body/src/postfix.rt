//! Calls on a receiver: by offset, and by name.

ghost use Rattle.som_body.specs.ExpressionInner.{Reads, IsLow, IsLowCall};
ghost use Rattle.som_body.specs.Reading as spec;
ghost use Rattle.som_model.specs.declared.limits.TheConstants.{MAX_NESTING};
ghost use Rattle.som_parse.specs.Answer.{Answers};
ghost use Rattle.som_parse.specs.Readers.{repeat};
ghost use Rattle.som_parse.specs.Seen.{text_at};
ghost use Rattle.std.specs.Prelude.{◌≡◌, ◌≤◌, ◌+◌, IfOk};

use crate::level::{Given, Line, NamedCall, Tall};
use crate::rules::Rules;
use crate::word::{any_word, outcome};
use som_ast::{ExprText, Word};
use som_lex::Tokens;
use som_model::NoMemory;
use som_parse::{Cursor, Key, Sign, Stop, Turn};
use std::alloc::Global;

fn called(alloc: Global, receiver: Tall, method: Word, given: Given) -> Result<Tall, NoMemory>
    requires receiver { receiver.height ≤ MAX_NESTING + 1 }
    requires given { given.height ≤ MAX_NESTING + 1 }
    ensures { IfOk result (λ a. a ≡ spec.called receiver method given) }
{
    let height = receiver.height.max(given.height) + 1;
    let tree = ExprText::Call {
        receiver: receiver.tree,
        method,
        args: given.args,
    };
    Tall::new(alloc, tree, height)
}

fn named_height(call: &NamedCall) -> usize
    requires receiver { call.now.receiver.height ≤ MAX_NESTING + 1 }
    requires given { call.now.given.height ≤ MAX_NESTING + 1 }
    ensures { result ≡ spec.named_height call.now }
{
    call.receiver.height.max(call.given.height) + 1
}

impl<'t, F: Fn(Global, &Tokens, &mut Cursor<'_>, usize, Line) -> Result<Tall, Stop>> Rules<'t, F> {
    fn step(&self, left: &mut Cursor<'_>, so_far: Tall) -> Result<Turn<Tall, Tall>, Stop>
        requires inner { Reads self.now.tokens.now self.now.depth (F.pre self.now.inner) (F.post self.now.inner) }
        requires depth { self.now.depth ≤ MAX_NESTING }
        requires low { so_far.height ≤ self.now.depth + 1 }
        ensures reads { Answers (spec.step (text_at self.now.tokens.now) (spec.at (text_at self.now.tokens.now) self.now.depth) (self.now.depth + 1) so_far left.old.rest.now) result left.new.rest.now }
        ensures low { IfOk result (IsLow (self.now.depth + 1)) }
    {
        if !left.sees(Sign::Dot) {
            return Ok(Turn::Done(so_far));
        }
        if !self.has_room(so_far.height) {
            return Err(Stop::Nesting);
        }
        left.skip();
        let method = any_word(self.alloc, self.tokens, left)?;
        let given = self.arguments(left)?;
        let call = called(self.alloc, so_far, method, given)?;
        Ok(Turn::More(call))
    }

    /// The steps on what was read.
    #[tactic(auto, unfolding(som_parse::specs::Readers::repeat))]
    pub(crate) fn steps(&self, left: &mut Cursor<'_>, first: Tall) -> Result<Tall, Stop>
        requires inner { Reads self.now.tokens.now self.now.depth (F.pre self.now.inner) (F.post self.now.inner) }
        requires depth { self.now.depth ≤ MAX_NESTING }
        requires low { first.height ≤ self.now.depth + 1 }
        ensures reads { Answers (repeat (spec.step (text_at self.now.tokens.now) (spec.at (text_at self.now.tokens.now) self.now.depth) (self.now.depth + 1)) first left.old.rest.now) result left.new.rest.now }
        ensures low { IfOk result (λ a. a.height ≤ self.now.depth + 1) }
    {
        let mut so_far = first;
        for _turn in 0..left.rest.len() + 1 {
            match self.step(left, so_far)? {
                Turn::More(more) => so_far = more,
                Turn::Done(whole) => return Ok(whole),
            }
        }
        Err(Stop::Syntax)
    }

    #[tactic(auto, unfolding(crate::specs::Reading::stepped))]
    fn stepped(&self, left: &mut Cursor<'_>) -> Result<Tall, Stop>
        requires inner { Reads self.now.tokens.now self.now.depth (F.pre self.now.inner) (F.post self.now.inner) }
        requires depth { self.now.depth ≤ MAX_NESTING }
        ensures reads { Answers (spec.stepped (text_at self.now.tokens.now) (spec.at (text_at self.now.tokens.now) self.now.depth) (self.now.depth + 1) left.old.rest.now) result left.new.rest.now }
        ensures low { IfOk result (λ a. a.height ≤ self.now.depth + 1) }
    {
        let first = self.primary(left)?;
        self.steps(left, first)
    }

    // A further step makes the last one part of the receiver.
    fn named_step(
        &self,
        left: &mut Cursor<'_>,
        so_far: NamedCall,
    ) -> Result<Turn<NamedCall, NamedCall>, Stop>
        requires inner { Reads self.now.tokens.now self.now.depth (F.pre self.now.inner) (F.post self.now.inner) }
        requires depth { self.now.depth ≤ MAX_NESTING }
        requires low { spec.named_height so_far ≤ self.now.depth + 1 }
        ensures reads { Answers (spec.named_step (text_at self.now.tokens.now) (spec.at (text_at self.now.tokens.now) self.now.depth) (self.now.depth + 1) so_far left.old.rest.now) result left.new.rest.now }
        ensures low { IfOk result (IsLowCall (self.now.depth + 1)) }
    {
        if !left.sees(Sign::Dot) {
            return Ok(Turn::Done(so_far));
        }
        if !self.has_room(named_height(&so_far)) {
            return Err(Stop::Nesting);
        }
        left.skip();
        let receiver = called(self.alloc, so_far.receiver, so_far.method, so_far.given)?;
        let method = any_word(self.alloc, self.tokens, left)?;
        let given = self.arguments(left)?;
        Ok(Turn::More(NamedCall {
            receiver,
            method,
            given,
        }))
    }

    #[tactic(auto, unfolding(som_parse::specs::Readers::repeat))]
    fn named_steps(&self, left: &mut Cursor<'_>, first: NamedCall) -> Result<NamedCall, Stop>
        requires inner { Reads self.now.tokens.now self.now.depth (F.pre self.now.inner) (F.post self.now.inner) }
        requires depth { self.now.depth ≤ MAX_NESTING }
        requires low { spec.named_height first ≤ self.now.depth + 1 }
        ensures reads { Answers (repeat (spec.named_step (text_at self.now.tokens.now) (spec.at (text_at self.now.tokens.now) self.now.depth) (self.now.depth + 1)) first left.old.rest.now) result left.new.rest.now }
        ensures low { IfOk result (λ s. spec.named_height s ≤ self.now.depth + 1) }
    {
        let mut so_far = first;
        for _turn in 0..left.rest.len() + 1 {
            match self.named_step(left, so_far)? {
                Turn::More(more) => so_far = more,
                Turn::Done(whole) => return Ok(whole),
            }
        }
        Err(Stop::Syntax)
    }

    // The receiver of a call by name, the steps on it, and the last step, which is the call.
    #[tactic(auto, unfolding(crate::specs::Reading::call_by_name))]
    fn call_by_name(&self, left: &mut Cursor<'_>) -> Result<NamedCall, Stop>
        requires inner { Reads self.now.tokens.now self.now.depth (F.pre self.now.inner) (F.post self.now.inner) }
        requires depth { self.now.depth ≤ MAX_NESTING }
        ensures reads { Answers (spec.call_by_name (text_at self.now.tokens.now) (spec.at (text_at self.now.tokens.now) self.now.depth) (self.now.depth + 1) left.old.rest.now) result left.new.rest.now }
        ensures low { IfOk result (λ s. spec.named_height s ≤ self.now.depth + 1) }
    {
        let receiver = self.below(left, Line::Primary)?;
        left.expect(Sign::Dot)?;
        let method = any_word(self.alloc, self.tokens, left)?;
        let given = self.arguments(left)?;
        self.named_steps(
            left,
            NamedCall {
                receiver,
                method,
                given,
            },
        )
    }

    // After `lookup`.
    #[tactic(auto, unfolding(crate::specs::Reading::lookup))]
    fn lookup(&self, left: &mut Cursor<'_>) -> Result<Tall, Stop>
        requires inner { Reads self.now.tokens.now self.now.depth (F.pre self.now.inner) (F.post self.now.inner) }
        requires depth { self.now.depth ≤ MAX_NESTING }
        ensures reads { Answers (spec.lookup (text_at self.now.tokens.now) (spec.at (text_at self.now.tokens.now) self.now.depth) (self.now.depth + 1) left.old.rest.now) result left.new.rest.now }
        ensures low { IfOk result (λ a. a.height ≤ self.now.depth + 1) }
    {
        let result = outcome(self.alloc, self.tokens, left)?;
        let call = self.call_by_name(left)?;
        let height = named_height(&call);
        let tree = ExprText::Lookup {
            result,
            receiver: call.receiver.tree,
            method: call.method,
            args: call.given.args,
        };
        let whole = Tall::new(self.alloc, tree, height)?;
        Ok(whole)
    }

    // After `dispatch`.
    #[tactic(auto, unfolding(crate::specs::Reading::dispatch))]
    fn dispatch(&self, left: &mut Cursor<'_>) -> Result<Tall, Stop>
        requires inner { Reads self.now.tokens.now self.now.depth (F.pre self.now.inner) (F.post self.now.inner) }
        requires depth { self.now.depth ≤ MAX_NESTING }
        ensures reads { Answers (spec.dispatch (text_at self.now.tokens.now) (spec.at (text_at self.now.tokens.now) self.now.depth) (self.now.depth + 1) left.old.rest.now) result left.new.rest.now }
        ensures low { IfOk result (λ a. a.height ≤ self.now.depth + 1) }
    {
        let result = outcome(self.alloc, self.tokens, left)?;
        let call = self.call_by_name(left)?;
        let height = named_height(&call);
        let tree = ExprText::Dispatch {
            result,
            receiver: call.receiver.tree,
            method: call.method,
            args: call.given.args,
        };
        let whole = Tall::new(self.alloc, tree, height)?;
        Ok(whole)
    }

    #[tactic(auto, unfolding(crate::specs::Reading::postfix))]
    pub(crate) fn postfix(&self, left: &mut Cursor<'_>) -> Result<Tall, Stop>
        requires inner { Reads self.now.tokens.now self.now.depth (F.pre self.now.inner) (F.post self.now.inner) }
        requires depth { self.now.depth ≤ MAX_NESTING }
        ensures reads { Answers (spec.postfix (text_at self.now.tokens.now) (spec.at (text_at self.now.tokens.now) self.now.depth) (self.now.depth + 1) left.old.rest.now) result left.new.rest.now }
        ensures low { IfOk result (λ a. a.height ≤ self.now.depth + 1) }
    {
        if left.sees_word(Key::Lookup) {
            left.skip();
            return self.lookup(left);
        }
        if left.sees_word(Key::Dispatch) {
            left.skip();
            return self.dispatch(left);
        }
        self.stepped(left)
    }
}
