//! The items of an implementation section.

ghost use Rattle.som_idl.specs.Reading as spec;
ghost use Rattle.som_parse.specs.Answer.{Answers};
ghost use Rattle.som_parse.specs.Readers.{another, listed, one_more};
ghost use Rattle.som_parse.specs.Seen.{text_at};
ghost use Rattle.som_parse.specs.Tokens.{is_sign};
ghost use Rattle.som_parse.specs.declared.token.Sign.TheVariants as signs;
ghost use Rattle.std.specs.Prelude.{◌≡◌};

use crate::name::{is_name, name, names};
use som_ast::{Item, Modifier, TypeName};
use som_lex::Tokens;
use som_model::List;
use som_parse::{Cursor, Key, Sign, Stop, Token, Turn, word_at};
use std::alloc::Global;

#[tactic(auto, unfolding(crate::specs::Reading::modifier))]
fn modifier(alloc: Global, tokens: &Tokens, left: &mut Cursor<'_>) -> Result<Modifier, Stop>
    ensures { Answers (spec.modifier (text_at tokens.now) left.old.rest.now) result left.new.rest.now }
{
    if left.sees_word(Key::Override) {
        left.skip();
        return Ok(Modifier::Override);
    }
    if left.sees_word(Key::NameLookup) {
        left.skip();
        return Ok(Modifier::NameLookup);
    }
    if left.sees_word(Key::Offset) {
        left.skip();
        return Ok(Modifier::Offset);
    }
    selecting(alloc, tokens, left)
}

#[tactic(auto, unfolding(crate::specs::Reading::selecting))]
fn selecting(alloc: Global, tokens: &Tokens, left: &mut Cursor<'_>) -> Result<Modifier, Stop>
    ensures { Answers (spec.selecting (text_at tokens.now) left.old.rest.now) result left.new.rest.now }
{
    left.keyword(Key::Select)?;
    left.expect(Sign::Assign)?;
    let parent = name(alloc, tokens, left)?;
    Ok(Modifier::Select { parent })
}

fn next_modifier(
    alloc: Global,
    tokens: &Tokens,
    left: &mut Cursor<'_>,
    so_far: List<Modifier>,
) -> Result<Turn<List<Modifier>, List<Modifier>>, Stop>
    ensures { Answers (another (spec.modifier (text_at tokens.now)) so_far left.old.rest.now) result left.new.rest.now }
{
    if !left.sees(Sign::Comma) {
        return Ok(Turn::Done(so_far));
    }
    left.skip();
    let next = modifier(alloc, tokens, left)?;
    let mut modifiers = so_far;
    modifiers.push(next)?;
    Ok(Turn::More(modifiers))
}

#[tactic(auto, unfolding(som_parse::specs::Readers::listed, som_parse::specs::Readers::repeat))]
fn modifiers(alloc: Global, tokens: &Tokens, left: &mut Cursor<'_>) -> Result<List<Modifier>, Stop>
    ensures { Answers (listed (spec.modifier (text_at tokens.now)) left.old.rest.now) result left.new.rest.now }
{
    let first = modifier(alloc, tokens, left)?;
    let mut so_far = List::new(alloc);
    so_far.push(first)?;
    for _turn in 0..left.rest.len() + 1 {
        match next_modifier(alloc, tokens, left, so_far)? {
            Turn::More(more) => so_far = more,
            Turn::Done(all) => return Ok(all),
        }
    }
    Err(Stop::Syntax)
}

// After `releaseorder` and its colon.
#[tactic(auto, unfolding(crate::specs::Reading::release_order, crate::specs::Reading::order))]
fn release_order(
    alloc: Global,
    tokens: &Tokens,
    left: &mut Cursor<'_>,
) -> Result<Option<Item>, Stop>
    ensures { Answers (spec.release_order (text_at tokens.now) left.old.rest.now) result left.new.rest.now }
{
    if left.sees(Sign::Semicolon) {
        left.expect(Sign::Semicolon)?;
        return Ok(Some(Item::ReleaseOrder {
            names: List::new(alloc),
        }));
    }
    let names = names(alloc, tokens, left)?;
    left.expect(Sign::Semicolon)?;
    Ok(Some(Item::ReleaseOrder { names }))
}

// After the name of a method, which stands at a place, and its colon.
#[tactic(auto, unfolding(crate::specs::Reading::method))]
fn method(
    alloc: Global,
    tokens: &Tokens,
    left: &mut Cursor<'_>,
    place: usize,
) -> Result<Option<Item>, Stop>
    ensures { Answers (spec.method (text_at tokens.now) place left.old.rest.now) result left.new.rest.now }
{
    let name = word_at(alloc, tokens, place)?;
    let modifiers = modifiers(alloc, tokens, left)?;
    left.expect(Sign::Semicolon)?;
    Ok(Some(Item::Method { name, modifiers }))
}

// After the type of variables.
#[tactic(auto, unfolding(crate::specs::Reading::variables))]
fn variables(
    alloc: Global,
    tokens: &Tokens,
    left: &mut Cursor<'_>,
    kind: TypeName,
) -> Result<Option<Item>, Stop>
    ensures { Answers (spec.variables (text_at tokens.now) kind left.old.rest.now) result left.new.rest.now }
{
    let names = names(alloc, tokens, left)?;
    left.expect(Sign::Semicolon)?;
    Ok(Some(Item::Variables { kind, names }))
}

// What a word sets that stands directly before an equals sign.
#[derive(Clone, Copy)]
enum Setting {
    Metaclass,
    Major,
    Minor,
    Ignored,
}

// The value of a setting that is left out: a name or a text literal.
#[tactic(auto, unfolding(crate::specs::Reading::ignored))]
fn ignored(alloc: Global, tokens: &Tokens, left: &mut Cursor<'_>) -> Result<(), Stop>
    ensures { Answers (spec.ignored (text_at tokens.now) left.old.rest.now) result left.new.rest.now }
{
    if let Some(Token::Literal(_)) = left.peek() {
        left.skip();
        return Ok(());
    }
    let _name = name(alloc, tokens, left)?;
    Ok(())
}

fn setting_of(key: Key) -> Option<Setting>
    ensures { result ≡ spec.setting_of key }
{
    match key {
        Key::Metaclass => Some(Setting::Metaclass),
        Key::MajorVersion => Some(Setting::Major),
        Key::MinorVersion => Some(Setting::Minor),
        Key::FileStem | Key::DllName | Key::FunctionPrefix => Some(Setting::Ignored),
        _ => None,
    }
}

// After a word that sets something and its equals sign.
fn assigned(
    alloc: Global,
    tokens: &Tokens,
    left: &mut Cursor<'_>,
    setting: Setting,
) -> Result<Option<Item>, Stop>
    ensures { Answers (spec.assigned (text_at tokens.now) setting left.old.rest.now) result left.new.rest.now }
{
    match setting {
        Setting::Metaclass => {
            let name = name(alloc, tokens, left)?;
            left.expect(Sign::Semicolon)?;
            Ok(Some(Item::Metaclass { name }))
        }
        Setting::Major => {
            let number = left.number()?;
            left.expect(Sign::Semicolon)?;
            Ok(Some(Item::Major { number }))
        }
        Setting::Minor => {
            let number = left.number()?;
            left.expect(Sign::Semicolon)?;
            Ok(Some(Item::Minor { number }))
        }
        Setting::Ignored => {
            ignored(alloc, tokens, left)?;
            left.expect(Sign::Semicolon)?;
            Ok(None)
        }
    }
}

// After a word that is no setting, or that may be one.
fn set(
    alloc: Global,
    tokens: &Tokens,
    left: &mut Cursor<'_>,
    setting: Option<Setting>,
    place: usize,
) -> Result<Option<Item>, Stop>
    ensures { Answers (spec.set (text_at tokens.now) setting place left.old.rest.now) result left.new.rest.now }
{
    if let Some(setting) = setting {
        if left.sees(Sign::Assign) {
            left.skip();
            return assigned(alloc, tokens, left, setting);
        }
    }
    let class = word_at(alloc, tokens, place)?;
    variables(alloc, tokens, left, TypeName::Class(class))
}

// After a name that stands at a place.
#[tactic(auto, unfolding(crate::specs::Reading::named_item, som_parse::specs::Tokens::same_key))]
fn named_item(
    alloc: Global,
    tokens: &Tokens,
    left: &mut Cursor<'_>,
    key: Key,
    place: usize,
) -> Result<Option<Item>, Stop>
    ensures { Answers (spec.named_item (text_at tokens.now) key place left.old.rest.now) result left.new.rest.now }
{
    if !left.sees(Sign::Colon) {
        return set(alloc, tokens, left, setting_of(key), place);
    }
    left.skip();
    if key == Key::ReleaseOrder {
        return release_order(alloc, tokens, left);
    }
    method(alloc, tokens, left, place)
}

/// An item, or none where it is left out of the tree.
#[tactic(auto, unfolding(crate::specs::Reading::item, som_parse::specs::Readers::take_word))]
fn item(alloc: Global, tokens: &Tokens, left: &mut Cursor<'_>) -> Result<Option<Item>, Stop>
    ensures { Answers (spec.item (text_at tokens.now) left.old.rest.now) result left.new.rest.now }
{
    if left.sees_word(Key::Long) {
        left.skip();
        return variables(alloc, tokens, left, TypeName::Long);
    }
    if left.sees_word(Key::Boolean) {
        left.skip();
        return variables(alloc, tokens, left, TypeName::Boolean);
    }
    if left.sees_word(Key::Str) {
        left.skip();
        return variables(alloc, tokens, left, TypeName::Str);
    }
    match left.peek() {
        Some(Token::Word(key, place)) => {
            if !is_name(key) {
                return Err(Stop::Syntax);
            }
            left.skip();
            named_item(alloc, tokens, left, key, place)
        }
        _ => Err(Stop::Syntax),
    }
}

fn next_item(
    alloc: Global,
    tokens: &Tokens,
    left: &mut Cursor<'_>,
    so_far: List<Item>,
) -> Result<Turn<List<Item>, List<Item>>, Stop>
    ensures { Answers (one_more (is_sign signs.CloseBrace) (spec.item (text_at tokens.now)) so_far left.old.rest.now) result left.new.rest.now }
{
    if left.sees(Sign::CloseBrace) {
        return Ok(Turn::Done(so_far));
    }
    let next = item(alloc, tokens, left)?;
    let mut items = so_far;
    if let Some(next) = next {
        items.push(next)?;
    }
    Ok(Turn::More(items))
}

/// The items up to the closing brace.
#[tactic(auto, unfolding(crate::specs::Reading::items_at, som_parse::specs::Readers::repeated, som_parse::specs::Readers::repeat))]
pub(crate) fn items(
    alloc: Global,
    tokens: &Tokens,
    left: &mut Cursor<'_>,
) -> Result<List<Item>, Stop>
    ensures { Answers (spec.items_at (text_at tokens.now) left.old.rest.now) result left.new.rest.now }
{
    let mut so_far = List::new(alloc);
    for _turn in 0..left.rest.len() + 1 {
        match next_item(alloc, tokens, left, so_far)? {
            Turn::More(more) => so_far = more,
            Turn::Done(all) => return Ok(all),
        }
    }
    Err(Stop::Syntax)
}
