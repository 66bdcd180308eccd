//! The readers of whole texts.

ghost use Rattle.som_body.specs.Answer.{AreBodies, IsMain, is_refused as is_refused_of};
ghost use Rattle.som_body.specs.StatementReading.{body_file as body_file_of, main_file as main_file_of};
ghost use Rattle.som_body.specs.Within.{BodyFileWithin, MainFileWithin};
ghost use Rattle.som_lex.specs.Spans.{IsSpelled};
ghost use Rattle.som_model.specs.declared.limits.TheConstants.{MAX_NESTING};
ghost use Rattle.som_parse.specs.Seen.{places_from, seen_from, text_at};
ghost use Rattle.som_parse.specs.Tokens.{head};
ghost use Rattle.som_parse.specs.declared.cursor.Stop.TheVariants as stops;
ghost use Rattle.std.specs.Prelude.{◌≡◌, ◌≢◌, All, IfOk, length};

use crate::SyntaxFault;
use crate::file::{body_file, main_file};
use som_ast::{BodyFile, MainFile};
use som_lex::Tokens;
use som_parse::{Cursor, Seen, Stop, Token, see};
use std::alloc::Global;

fn is_refused(left: &Cursor<'_>) -> bool
    ensures { result ≡ is_refused_of (head left.now.rest.now) }
{
    matches!(left.peek(), Some(Token::Directive))
}

// Why reading stopped, as it is answered.
fn refuse(tokens: &Tokens, seen: &Seen, left: &Cursor<'_>, stop: Stop) -> SyntaxFault
    requires tokens { seen.now.tokens.items ≡ seen_from tokens.now.source 0 tokens.now.list }
    requires places { seen.now.places.items ≡ places_from tokens.now.source 0 tokens.now.list }
    ensures bodies { (stop ≢ stops.Memory → body_file_of (text_at tokens.now) MAX_NESTING seen.now.tokens.items ≡ Err (stop, left.now.rest.now)) → AreBodies tokens.now (Err result) }
    ensures main { (stop ≢ stops.Memory → main_file_of (text_at tokens.now) MAX_NESTING seen.now.tokens.items ≡ Err (stop, left.now.rest.now)) → IsMain tokens.now (Err result) }
{
    let token = seen.place_of(tokens, left);
    match stop {
        Stop::Memory => SyntaxFault::NoMemory,
        Stop::Nesting => SyntaxFault::Nesting { token },
        Stop::Syntax => {
            if is_refused(left) {
                SyntaxFault::NotInProfile { token }
            } else {
                SyntaxFault::Syntax { token }
            }
        }
    }
}

/// The tree of a file of bodies, or the place of the first token that no text goes on with or with which it nests too deep. The
/// tokens are those of a text, and so what the tree has is within its limits.
pub fn parse_bodies(alloc: Global, tokens: &Tokens) -> Result<BodyFile, SyntaxFault>
    requires { All (IsSpelled tokens.now.source) tokens.now.list }
    ensures answer { AreBodies tokens.now result }
    ensures within { IfOk result (BodyFileWithin (length tokens.now.list)) }
{
    let Ok(seen) = see(alloc, tokens) else {
        return Err(SyntaxFault::NoMemory);
    };
    let mut left = Cursor {
        rest: seen.tokens.as_slice(),
    };
    match body_file(alloc, tokens, &mut left) {
        Ok(tree) => Ok(tree),
        Err(stop) => Err(refuse(tokens, &seen, &left, stop)),
    }
}

/// The tree of a main, or the place of the first token that no text goes on with or with which it nests too deep. The tokens are
/// those of a text, and so what the tree has is within its limits.
pub fn parse_main(alloc: Global, tokens: &Tokens) -> Result<MainFile, SyntaxFault>
    requires { All (IsSpelled tokens.now.source) tokens.now.list }
    ensures answer { IsMain tokens.now result }
    ensures within { IfOk result (MainFileWithin (length tokens.now.list)) }
{
    let Ok(seen) = see(alloc, tokens) else {
        return Err(SyntaxFault::NoMemory);
    };
    let mut left = Cursor {
        rest: seen.tokens.as_slice(),
    };
    match main_file(alloc, tokens, &mut left) {
        Ok(tree) => Ok(tree),
        Err(stop) => Err(refuse(tokens, &seen, &left, stop)),
    }
}
