//! Calls by offset on what was read before.

ghost use Rattle.som_body.specs.Reading as spec;
ghost use Rattle.som_model.specs.declared.limits.TheConstants.{MAX_NESTING};
ghost use Rattle.som_parse.specs.Answer.{Answers};
ghost use Rattle.som_parse.specs.Seen.{text_at};
ghost use Rattle.std.specs.Prelude.{◌≡◌, ◌≤◌, ◌+◌};

use crate::level::Tall;
use crate::lines::line_at;
use crate::rules::Rules;
use som_ast::ExprText;
use som_lex::Tokens;
use som_parse::{Cursor, Sign, Stop};
use std::alloc::Global;

/// Further steps on what was read, where `depth` levels are left for it.
pub fn steps_from(
    alloc: Global,
    tokens: &Tokens,
    left: &mut Cursor<'_>,
    depth: usize,
    tree: ExprText,
) -> Result<Tall, Stop>
    requires { depth ≤ MAX_NESTING }
    ensures { Answers (spec.steps_from (text_at tokens.now) depth (spec.tall tree 1) left.old.rest.now) result left.new.rest.now }
{
    let first = Tall::new(alloc, tree, 1)?;
    if depth == 0 {
        return if left.sees(Sign::Dot) {
            Err(Stop::Nesting)
        } else {
            Ok(first)
        };
    }
    Rules {
        alloc,
        tokens,
        depth: depth - 1,
        inner: line_at,
    }
    .steps(left, first)
}
