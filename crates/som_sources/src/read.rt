//! Files through lexer and parser to their syntax trees, up to the first error.

ghost use Rattle.som_lex.specs.Spans.{IsSpelled};
ghost use Rattle.som_sources.specs.Reading.{IsParsed, Reads, ReadsAll, Says, Tells, lexing_told, parsing_told};
ghost use Rattle.som_sources.specs.declared.fault.TextFault.TheVariants as texts;
ghost use Rattle.std.specs.Prelude.{All, Some};

use crate::{CompileFault, ReadingFault, Source, SourceKind, TextFault, TextTree, Trees, kind_of};
use som_body::{parse_bodies, parse_main};
use som_idl::{SyntaxFault, parse_idl};
use som_lex::{LexFault, Tokens, lex};
use som_model::{List, MAX_NAME, MAX_NESTING, MAX_TEXT, NoMemory, Text};
use std::alloc::Global;

// The text of this name can't be read.
fn unread(alloc: Global, name: &Text, fault: ReadingFault, place: usize) -> CompileFault
    ensures { Tells (Some (texts.Unread fault name.now place)) result }
{
    match name.copy(alloc) {
        Ok(name) => CompileFault::Text(TextFault::Unread { fault, name, place }),
        Err(NoMemory) => CompileFault::NoMemory,
    }
}

// A quantity passes its limit.
fn passed(alloc: Global, quantity: &[u8], number: u32) -> CompileFault
    ensures { Tells (Some (texts.Limit quantity.now number)) result }
{
    match Text::from_slice(alloc, quantity) {
        Ok(quantity) => CompileFault::Text(TextFault::Limit { quantity, number }),
        Err(NoMemory) => CompileFault::NoMemory,
    }
}

// What is told of the bytes of a text.
fn unlexed(alloc: Global, name: &Text, fault: LexFault) -> CompileFault
    ensures { Tells (lexing_told name.now fault) result }
{
    match fault {
        LexFault::BadByte { offset } => unread(alloc, name, ReadingFault::BadByte, offset),
        LexFault::OpenText { offset } => unread(alloc, name, ReadingFault::OpenText, offset),
        LexFault::OpenComment { offset } => unread(alloc, name, ReadingFault::OpenComment, offset),
        LexFault::NumberTooLarge { offset } => {
            unread(alloc, name, ReadingFault::NumberTooLarge, offset)
        }
        LexFault::NameTooLong { .. } => passed(alloc, b"name", MAX_NAME),
        LexFault::TextTooLong { .. } => passed(alloc, b"text", MAX_TEXT),
        LexFault::NoMemory => CompileFault::NoMemory,
    }
}

// What is told of the tokens of a text.
fn unparsed(alloc: Global, name: &Text, tokens: &Tokens, fault: SyntaxFault) -> CompileFault
    ensures { Tells (parsing_told name.now tokens.now fault) result }
{
    match fault {
        SyntaxFault::Syntax { token } => {
            unread(alloc, name, ReadingFault::Syntax, tokens.offset_of(token))
        }
        SyntaxFault::NotInProfile { token } => {
            unread(
                alloc,
                name,
                ReadingFault::NotInProfile,
                tokens.offset_of(token),
            )
        }
        SyntaxFault::Nesting { .. } => passed(alloc, b"nesting", MAX_NESTING),
        SyntaxFault::NoMemory => CompileFault::NoMemory,
    }
}

// The tree of the tokens of a text of this kind.
fn parse(alloc: Global, kind: SourceKind, tokens: &Tokens) -> Result<TextTree, SyntaxFault>
    requires { All (IsSpelled tokens.now.source) tokens.now.list }
    ensures { IsParsed kind tokens.now result }
{
    match kind {
        SourceKind::Interfaces => match parse_idl(alloc, tokens) {
            Ok(file) => Ok(TextTree::Interfaces(file)),
            Err(fault) => Err(fault),
        },
        SourceKind::Bodies => match parse_bodies(alloc, tokens) {
            Ok(file) => Ok(TextTree::Bodies(file)),
            Err(fault) => Err(fault),
        },
        SourceKind::Main => match parse_main(alloc, tokens) {
            Ok(file) => Ok(TextTree::Main(file)),
            Err(fault) => Err(fault),
        },
    }
}

// The tree of a text, or its first fault.
#[tactic(auto, using(crate::proofs::ReadLaws::lex_refused, crate::proofs::ReadLaws::parse_refused, crate::proofs::ReadLaws::tree_read))]
fn read_text(alloc: Global, source: &Source) -> Result<TextTree, CompileFault>
    ensures { Says (Reads source.now) result }
{
    let tokens = match lex(alloc, &source.bytes) {
        Ok(tokens) => tokens,
        Err(fault) => return Err(unlexed(alloc, &source.name, fault)),
    };
    match parse(alloc, kind_of(&source.name), &tokens) {
        Ok(tree) => Ok(tree),
        Err(fault) => Err(unparsed(alloc, &source.name, &tokens, fault)),
    }
}

/// The trees of the texts, each read in order as what its name says, or what is wrong with the first that can't be read. A fault
/// of the bytes of a text comes before those of its tokens.
#[tactic(auto, using(crate::proofs::ReadLaws::all_texts, crate::proofs::ReadLaws::next_read, crate::proofs::ReadLaws::next_refused))]
pub fn read_texts(alloc: Global, sources: &List<Source>) -> Result<Trees, CompileFault>
    ensures { Says (ReadsAll sources.now) result }
{
    let sources = sources.as_slice();
    let mut trees = Trees::new(alloc);
    for source in sources {
        trees.push(read_text(alloc, source)?)?;
    }
    Ok(trees)
}
