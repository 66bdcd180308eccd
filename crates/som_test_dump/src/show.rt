//! What is shown of a text.

ghost use Rattle.som_lex.specs.Spans.{AreTokens, IsSpelled};
ghost use Rattle.som_test_dump.specs.Kinds.{is_kind};
ghost use Rattle.std.specs.Prelude.{◌≡◌, All, IfOk, is_some};

use crate::kind::{Kind, TextKind};
use crate::lines::Lines;
use som_body::{parse_bodies, parse_main};
use som_idl::parse_idl;
use som_lex::{LexFault, Tokens, lex};
use som_model::{List, NoMemory};
use som_parse::SyntaxFault;
use std::alloc::Global;

impl Lines {
    pub(crate) fn add_fault(&mut self, name: &str, place: usize) -> Result<(), NoMemory> {
        self.add(name)?;
        self.add_number(place)?;
        self.end()
    }

    // The fault of bytes by its number, and its byte.
    fn add_lex_fault(&mut self, fault: LexFault) -> Result<(), NoMemory> {
        match fault {
            LexFault::BadByte { offset } => self.add_fault("L1 ", offset),
            LexFault::OpenText { offset } => self.add_fault("L2 ", offset),
            LexFault::OpenComment { offset } => self.add_fault("L3 ", offset),
            LexFault::NumberTooLarge { offset } => self.add_fault("L4 ", offset),
            LexFault::NameTooLong { offset } => self.add_fault("L5 ", offset),
            LexFault::TextTooLong { offset } => self.add_fault("L6 ", offset),
            LexFault::NoMemory => Err(NoMemory),
        }
    }

    // The fault of tokens by its number, and its token.
    fn add_syntax_fault(&mut self, fault: SyntaxFault) -> Result<(), NoMemory> {
        match fault {
            SyntaxFault::Syntax { token } => self.add_fault("P1 ", token),
            SyntaxFault::NotInProfile { token } => self.add_fault("P2 ", token),
            SyntaxFault::Nesting { token } => self.add_fault("nesting ", token),
            SyntaxFault::NoMemory => Err(NoMemory),
        }
    }

    // What is shown of the tokens of a text.
    fn add_kind(&mut self, alloc: Global, kind: TextKind, tokens: &Tokens) -> Result<(), NoMemory>
        requires tokens { AreTokens tokens.now }
        requires spelled { All (IsSpelled tokens.now.source) tokens.now.list }
    {
        match kind {
            TextKind::Tokens => self.add_tokens(tokens),
            TextKind::Texts => self.add_texts(tokens),
            TextKind::Idl => match parse_idl(alloc, tokens) {
                Ok(file) => self.add_interfaces(&file),
                Err(fault) => self.add_syntax_fault(fault),
            },
            TextKind::Bodies => match parse_bodies(alloc, tokens) {
                Ok(file) => self.add_bodies(&file),
                Err(fault) => self.add_syntax_fault(fault),
            },
            TextKind::Main => match parse_main(alloc, tokens) {
                Ok(file) => self.add_main(&file),
                Err(fault) => self.add_syntax_fault(fault),
            },
        }
    }

    // What is shown of a text, or the fault of its bytes.
    fn add_text(
        &mut self,
        alloc: Global,
        kind: TextKind,
        bytes: &List<u8>,
    ) -> Result<(), NoMemory> {
        match lex(alloc, bytes) {
            Ok(tokens) => self.add_kind(alloc, kind, &tokens),
            Err(fault) => self.add_lex_fault(fault),
        }
    }
}

/// The lines that show a text's tokens or its tree, or a tower image, each ended by a line feed, or the line of its first fault; and none for a name
/// that isn't one of the kinds that `README.md` lists.
pub fn shown(alloc: Global, kind: &[u8], bytes: &List<u8>) -> Result<Option<List<u8>>, NoMemory>
    ensures { IfOk result (λ lines. is_some lines ≡ is_kind kind.now) }
{
    let Some(kind) = Kind::named(kind) else {
        return Ok(None);
    };
    let mut lines = Lines::new(alloc);
    match kind {
        Kind::Text(kind) => lines.add_text(alloc, kind, bytes)?,
        Kind::Tower => lines.add_tower(alloc, bytes)?,
    }
    Ok(Some(lines.into_bytes()))
}
