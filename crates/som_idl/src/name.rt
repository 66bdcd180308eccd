//! Names and types.

ghost use Rattle.som_idl.specs.Grammar.{is_name as is_name_of, is_name_text as is_name_text_of};
ghost use Rattle.som_idl.specs.Reading as spec;
ghost use Rattle.som_parse.specs.Answer.{Answers};
ghost use Rattle.som_parse.specs.Readers.{another, listed};
ghost use Rattle.som_parse.specs.Seen.{text_at};
ghost use Rattle.std.specs.Prelude.{◌≡◌};

use som_ast::{TypeName, Word};
use som_lex::{Tokens, is_word};
use som_model::List;
use som_parse::{Cursor, Key, Sign, Stop, Token, Turn, key_of, word_at};
use std::alloc::Global;

pub(crate) fn is_name(key: Key) -> bool
    ensures { result ≡ is_name_of key }
{
    match key {
        Key::Refused
        | Key::Interface
        | Key::Attribute
        | Key::Readonly
        | Key::In
        | Key::Void
        | Key::Long
        | Key::Boolean
        | Key::Str
        | Key::Implementation
        | Key::True
        | Key::False => false,
        _ => true,
    }
}

/// Whether bytes are a name of interface files by themselves: a word of at most `MAX_NAME` bytes that has no other meaning there.
pub fn is_name_text(bytes: &[u8]) -> bool
    ensures { result ≡ is_name_text_of bytes.now }
{
    is_word(bytes) && is_name(key_of(bytes))
}

#[tactic(auto, unfolding(crate::specs::Reading::name, som_parse::specs::Readers::take_word))]
pub(crate) fn name(alloc: Global, tokens: &Tokens, left: &mut Cursor<'_>) -> Result<Word, Stop>
    ensures { Answers (spec.name (text_at tokens.now) left.old.rest.now) result left.new.rest.now }
{
    match left.peek() {
        Some(Token::Word(key, place)) => {
            if !is_name(key) {
                return Err(Stop::Syntax);
            }
            let word = word_at(alloc, tokens, place)?;
            left.skip();
            Ok(word)
        }
        _ => Err(Stop::Syntax),
    }
}

fn next_name(
    alloc: Global,
    tokens: &Tokens,
    left: &mut Cursor<'_>,
    so_far: List<Word>,
) -> Result<Turn<List<Word>, List<Word>>, Stop>
    ensures { Answers (another (spec.name (text_at tokens.now)) so_far left.old.rest.now) result left.new.rest.now }
{
    if !left.sees(Sign::Comma) {
        return Ok(Turn::Done(so_far));
    }
    left.skip();
    let next = name(alloc, tokens, left)?;
    let mut names = so_far;
    names.push(next)?;
    Ok(Turn::More(names))
}

/// At least one name, with commas between.
#[tactic(auto, unfolding(som_parse::specs::Readers::listed, som_parse::specs::Readers::repeat))]
pub(crate) fn names(
    alloc: Global,
    tokens: &Tokens,
    left: &mut Cursor<'_>,
) -> Result<List<Word>, Stop>
    ensures { Answers (listed (spec.name (text_at tokens.now)) left.old.rest.now) result left.new.rest.now }
{
    let first = name(alloc, tokens, left)?;
    let mut so_far = List::new(alloc);
    so_far.push(first)?;
    for _turn in 0..left.rest.len() + 1 {
        match next_name(alloc, tokens, left, so_far)? {
            Turn::More(more) => so_far = more,
            Turn::Done(all) => return Ok(all),
        }
    }
    Err(Stop::Syntax)
}

#[tactic(auto, unfolding(crate::specs::Reading::kind))]
pub(crate) fn kind(alloc: Global, tokens: &Tokens, left: &mut Cursor<'_>) -> Result<TypeName, Stop>
    ensures { Answers (spec.kind (text_at tokens.now) left.old.rest.now) result left.new.rest.now }
{
    if left.sees_word(Key::Long) {
        left.skip();
        return Ok(TypeName::Long);
    }
    if left.sees_word(Key::Boolean) {
        left.skip();
        return Ok(TypeName::Boolean);
    }
    if left.sees_word(Key::Str) {
        left.skip();
        return Ok(TypeName::Str);
    }
    let class = name(alloc, tokens, left)?;
    Ok(TypeName::Class(class))
}

/// The type of a result, or none for `void`.
#[tactic(auto, unfolding(crate::specs::Reading::outcome))]
pub(crate) fn outcome(
    alloc: Global,
    tokens: &Tokens,
    left: &mut Cursor<'_>,
) -> Result<Option<TypeName>, Stop>
    ensures { Answers (spec.outcome (text_at tokens.now) left.old.rest.now) result left.new.rest.now }
{
    if left.sees_word(Key::Void) {
        left.skip();
        return Ok(None);
    }
    let found = kind(alloc, tokens, left)?;
    Ok(Some(found))
}
