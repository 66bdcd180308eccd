//! The main loop of the lexer, from a text to all its tokens.

ghost use Rattle.std.specs.Prelude.{◌≡◌, ◌≢◌, ◌++◌, ◌^◌, ◌<◌, length, All, IfOk, IfErr, OnOk};
ghost use Rattle.som_lex.specs.Cut.{IsLexed, Stops};
ghost use Rattle.som_lex.specs.Lexeme.{token_in};
ghost use Rattle.som_lex.specs.Spans.{AreTokens, AreInOrder, IsSpelled};
ghost use Rattle.som_lex.specs.declared.fault.LexFault.TheVariants as faults;

use crate::front::front;
use crate::lexeme::Lexeme;
use crate::line::fresh_after;
use crate::{LexFault, LexToken, Tokens};
use som_model::{List, NoMemory};
use std::alloc::Global;

/// The tokens of a text, or its first fault.
pub fn lex(alloc: Global, bytes: &List<u8>) -> Result<Tokens, LexFault>
    ensures tokens { IfOk result AreTokens }
    ensures source { IfOk result (λ t. t.source ≡ bytes.now) }
    ensures order { IfOk result (λ t. AreInOrder 0 (length t.source) t.list) }
    ensures spelled { IfOk result (λ t. All (IsSpelled t.source) t.list) }
    ensures fault { IfErr result (λ f. f ≢ faults.NoMemory → Stops bytes.now 0 f) }
{
    let list = cut(alloc, bytes.as_slice())?;
    let source = bytes.copy(alloc)?;
    Ok(Tokens { source, list })
}

fn cut(alloc: Global, source: &[u8]) -> Result<List<LexToken>, LexFault>
    ensures { IsLexed source.now result }
{
    let mut list = List::new(alloc);
    let mut rest = source;
    let mut at = 0usize;
    let mut fresh = true;
    while !rest.is_empty() {
        let lexeme = front(fresh, at, rest)?;
        note(&mut list, at, lexeme)?;
        let (passed, others) = rest.split_at(lexeme.end - at);
        fresh = fresh_after(fresh, passed);
        at = lexeme.end;
        rest = others;
    }
    Ok(list)
}

// Adds the token, if it is one, that begins at a place.
fn note(list: &mut List<LexToken>, start: usize, lexeme: Lexeme) -> Result<(), NoMemory>
    ensures { OnOk result (list.new ≡ list.old ++ token_in start lexeme) }
{
    let Lexeme { token, end } = lexeme;
    match token {
        Some(kind) => list.push(LexToken { kind, start, end }),
        None => Ok(()),
    }
}
