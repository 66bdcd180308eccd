//! Words, names, types and expressions of one token.

ghost use Rattle.som_body.specs.Grammar.{is_name as is_name_of, is_name_text as is_name_text_of, host_code as host_code_of, word_atom as word_atom_of, atom as atom_of};
ghost use Rattle.som_body.specs.Reading as spec;
ghost use Rattle.som_lex.specs.Values.{text_of};
ghost use Rattle.som_parse.specs.Answer.{Answers};
ghost use Rattle.som_parse.specs.Seen.{text_at};
ghost use Rattle.std.specs.Prelude.{◌≡◌, IfOk};

use som_ast::{ExprText, TypeName, Word};
use som_lex::{Tokens, is_word, literal_text};
use som_model::{HostCode, NoMemory, Text};
use som_parse::{Cursor, Key, Stop, Token, key_of, word_at};
use std::alloc::Global;

/// Whether a word may be a name.
pub fn is_name(key: Key) -> bool
    ensures { result ≡ is_name_of key }
{
    match key {
        Key::Var
        | Key::If
        | Key::Else
        | Key::While
        | Key::Return
        | Key::Print
        | Key::Free
        | Key::And
        | Key::Or
        | Key::Not
        | Key::As
        | Key::Me
        | Key::SomThis
        | Key::Nil
        | Key::True
        | Key::False
        | Key::Length
        | Key::TextOf
        | Key::New
        | Key::Class
        | Key::Isa
        | Key::Proxy
        | Key::Lookup
        | Key::Dispatch
        | Key::Parent
        | Key::Parents
        | Key::Host
        | Key::Manager
        | Key::Main
        | Key::Void
        | Key::Long
        | Key::Boolean
        | Key::Str => false,
        _ => true,
    }
}

/// Whether bytes are a name of bodies by themselves: a word of at most `MAX_NAME` bytes that has no other meaning there.
pub fn is_name_text(bytes: &[u8]) -> bool
    ensures { result ≡ is_name_text_of bytes.now }
{
    is_word(bytes) && is_name(key_of(bytes))
}

/// Takes any word, also one that a grammar treats specially.
#[tactic(auto, unfolding(crate::specs::Reading::any_word, som_parse::specs::Readers::take_word))]
pub fn any_word(alloc: Global, tokens: &Tokens, left: &mut Cursor<'_>) -> Result<Word, Stop>
    ensures { Answers (spec.any_word (text_at tokens.now) left.old.rest.now) result left.new.rest.now }
{
    match left.peek() {
        Some(Token::Word(_, place)) => {
            let word = word_at(alloc, tokens, place)?;
            left.skip();
            Ok(word)
        }
        _ => Err(Stop::Syntax),
    }
}

/// Takes a word that may be a name, or stops with the token still in hand.
#[tactic(auto, unfolding(crate::specs::Reading::name, som_parse::specs::Readers::take_word))]
pub fn name(alloc: Global, tokens: &Tokens, left: &mut Cursor<'_>) -> Result<Word, Stop>
    ensures { Answers (spec.name (text_at tokens.now) left.old.rest.now) result left.new.rest.now }
{
    match left.peek() {
        Some(Token::Word(key, place)) => {
            if !is_name(key) {
                return Err(Stop::Syntax);
            }
            let word = word_at(alloc, tokens, place)?;
            left.skip();
            Ok(word)
        }
        _ => Err(Stop::Syntax),
    }
}

fn host_code(key: Key) -> Option<HostCode>
    ensures { result ≡ host_code_of key }
{
    match key {
        Key::Min => Some(HostCode::Min),
        Key::Max => Some(HostCode::Max),
        Key::And => Some(HostCode::And),
        Key::Or => Some(HostCode::Or),
        Key::Xor => Some(HostCode::Xor),
        Key::WrapAdd => Some(HostCode::WrapAdd),
        _ => None,
    }
}

/// The name of a procedure of the host.
#[tactic(auto, unfolding(crate::specs::Reading::host, som_parse::specs::Readers::take_word))]
pub(crate) fn host(tokens: &Tokens, left: &mut Cursor<'_>) -> Result<HostCode, Stop>
    ensures { Answers (spec.host (text_at tokens.now) left.old.rest.now) result left.new.rest.now }
{
    match left.peek() {
        Some(Token::Word(key, _)) => match host_code(key) {
            Some(code) => {
                left.skip();
                Ok(code)
            }
            None => Err(Stop::Syntax),
        },
        _ => Err(Stop::Syntax),
    }
}

/// Takes a type: `long`, `boolean`, `string`, or the name of a class.
#[tactic(auto, unfolding(crate::specs::Reading::kind))]
pub fn kind(alloc: Global, tokens: &Tokens, left: &mut Cursor<'_>) -> Result<TypeName, Stop>
    ensures { Answers (spec.kind (text_at tokens.now) left.old.rest.now) result left.new.rest.now }
{
    if left.sees_word(Key::Long) {
        left.skip();
        return Ok(TypeName::Long);
    }
    if left.sees_word(Key::Boolean) {
        left.skip();
        return Ok(TypeName::Boolean);
    }
    if left.sees_word(Key::Str) {
        left.skip();
        return Ok(TypeName::Str);
    }
    let class = name(alloc, tokens, left)?;
    Ok(TypeName::Class(class))
}

/// The type of a result, or none for `void`.
#[tactic(auto, unfolding(crate::specs::Reading::outcome))]
pub(crate) fn outcome(
    alloc: Global,
    tokens: &Tokens,
    left: &mut Cursor<'_>,
) -> Result<Option<TypeName>, Stop>
    ensures { Answers (spec.outcome (text_at tokens.now) left.old.rest.now) result left.new.rest.now }
{
    if left.sees_word(Key::Void) {
        left.skip();
        return Ok(None);
    }
    let found = kind(alloc, tokens, left)?;
    Ok(Some(found))
}

// The text of a literal after its escapes.
fn literal_at(alloc: Global, tokens: &Tokens, place: usize) -> Result<Text, NoMemory>
    ensures { IfOk result (λ text. text ≡ text_of (text_at tokens.now place)) }
{
    let literal = word_at(alloc, tokens, place)?;
    literal_text(alloc, literal.text.as_slice())
}

fn word_atom(
    alloc: Global,
    tokens: &Tokens,
    key: Key,
    place: usize,
) -> Result<Option<ExprText>, NoMemory>
    ensures { IfOk result (λ found. found ≡ word_atom_of (text_at tokens.now) key place) }
{
    match key {
        Key::True => Ok(Some(ExprText::Boolean(true))),
        Key::False => Ok(Some(ExprText::Boolean(false))),
        Key::Nil => Ok(Some(ExprText::Nil)),
        Key::Me => Ok(Some(ExprText::Me)),
        Key::Manager => Ok(Some(ExprText::Manager)),
        _ => {
            if !is_name(key) {
                return Ok(None);
            }
            Ok(Some(ExprText::Name(word_at(alloc, tokens, place)?)))
        }
    }
}

/// What the token in hand is as an expression, if it is one by itself.
pub(crate) fn atom(
    alloc: Global,
    tokens: &Tokens,
    token: Option<Token>,
) -> Result<Option<ExprText>, NoMemory>
    ensures { IfOk result (λ found. found ≡ spec.found (atom_of (text_at tokens.now)) token) }
{
    match token {
        Some(Token::Number(number)) => Ok(Some(ExprText::Number(number))),
        Some(Token::Literal(place)) => {
            let text = literal_at(alloc, tokens, place)?;
            Ok(Some(ExprText::Literal(text)))
        }
        Some(Token::Word(key, place)) => word_atom(alloc, tokens, key, place),
        _ => Ok(None),
    }
}
