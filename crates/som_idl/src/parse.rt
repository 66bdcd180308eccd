//! The whole reader.

ghost use Rattle.som_idl.specs.Answer.{IsAnswer, is_refused as is_refused_of};
ghost use Rattle.som_lex.specs.Spans.{IsSpelled};
ghost use Rattle.som_idl.specs.Reading as spec;
ghost use Rattle.som_idl.specs.Within.{FileWithin};
ghost use Rattle.som_parse.specs.Seen.{places_from, seen_from, text_at};
ghost use Rattle.som_parse.specs.Tokens.{head};
ghost use Rattle.som_parse.specs.declared.cursor.Stop.TheVariants as stops;
ghost use Rattle.std.specs.Prelude.{◌≡◌, ◌≢◌, All, IfOk};

use crate::SyntaxFault;
use crate::file::file;
use som_ast::IdlFile;
use som_lex::Tokens;
use som_parse::{Cursor, Key, Seen, Stop, Token, see};
use std::alloc::Global;

fn is_refused(left: &Cursor<'_>) -> bool
    ensures { result ≡ is_refused_of (head left.now.rest.now) }
{
    matches!(
        left.peek(),
        Some(Token::Directive | Token::Word(Key::Refused, _))
    )
}

// Why reading stopped, as it is answered.
fn refuse(tokens: &Tokens, seen: &Seen, left: &Cursor<'_>, stop: Stop) -> SyntaxFault
    requires tokens { seen.now.tokens.items ≡ seen_from tokens.now.source 0 tokens.now.list }
    requires places { seen.now.places.items ≡ places_from tokens.now.source 0 tokens.now.list }
    requires stopped { stop ≢ stops.Memory → spec.file (text_at tokens.now) seen.now.tokens.items ≡ Err (stop, left.now.rest.now) }
    ensures { IsAnswer tokens.now (Err result) }
{
    match stop {
        Stop::Memory => SyntaxFault::NoMemory,
        _ => {
            let token = seen.place_of(tokens, left);
            if is_refused(left) {
                SyntaxFault::NotInProfile { token }
            } else {
                SyntaxFault::Syntax { token }
            }
        }
    }
}

/// The tree of an interface file, or the place of the first token that no text goes on with. The tokens are those of a text, and
/// so names and version numbers of the tree are within their limits.
pub fn parse_idl(alloc: Global, tokens: &Tokens) -> Result<IdlFile, SyntaxFault>
    requires { All (IsSpelled tokens.now.source) tokens.now.list }
    ensures answer { IsAnswer tokens.now result }
    ensures within { IfOk result FileWithin }
{
    let Ok(seen) = see(alloc, tokens) else {
        return Err(SyntaxFault::NoMemory);
    };
    let mut left = Cursor {
        rest: seen.tokens.as_slice(),
    };
    match file(alloc, tokens, &mut left) {
        Ok(tree) => Ok(tree),
        Err(stop) => Err(refuse(tokens, &seen, &left, stop)),
    }
}
