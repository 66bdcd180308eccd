//! What words and signs are, by their texts.

ghost use Rattle.som_parse.specs.Words as spec;
ghost use Rattle.std.specs.Prelude.{◌≡◌};
ghost use Rattle.std.specs.Str.{bytes_eq};

use crate::{Key, Sign};

fn is(word: &[u8], text: &[u8]) -> bool
    ensures { result ≡ bytes_eq word.now text.now }
{
    word == text
}

#[tactic(auto, unfolding(crate::specs::Words::is_refused_declaration))]
fn is_refused_declaration(word: &[u8]) -> bool
    ensures { result ≡ spec.is_refused_declaration word.now }
{
    is(word, b"module")
        || is(word, b"typedef")
        || is(word, b"struct")
        || is(word, b"union")
        || is(word, b"enum")
        || is(word, b"sequence")
        || is(word, b"const")
        || is(word, b"exception")
        || is(word, b"raises")
        || is(word, b"context")
}

#[tactic(auto, unfolding(crate::specs::Words::is_refused_type))]
fn is_refused_type(word: &[u8]) -> bool
    ensures { result ≡ spec.is_refused_type word.now }
{
    is(word, b"oneway")
        || is(word, b"out")
        || is(word, b"inout")
        || is(word, b"short")
        || is(word, b"unsigned")
        || is(word, b"float")
        || is(word, b"double")
        || is(word, b"char")
        || is(word, b"octet")
}

#[tactic(auto, unfolding(crate::specs::Words::is_refused_modifier))]
fn is_refused_modifier(word: &[u8]) -> bool
    ensures { result ≡ spec.is_refused_modifier word.now }
{
    is(word, b"any")
        || is(word, b"passthru")
        || is(word, b"nodata")
        || is(word, b"noget")
        || is(word, b"noset")
        || is(word, b"procedure")
        || is(word, b"nooverride")
        || is(word, b"callstyle")
}

#[tactic(auto, unfolding(crate::specs::Words::expression_word))]
fn expression_word(word: &[u8]) -> Key
    ensures { result ≡ spec.expression_word word.now }
{
    match word {
        _ if is(word, b"length") => Key::Length,
        _ if is(word, b"text") => Key::TextOf,
        _ if is(word, b"new") => Key::New,
        _ if is(word, b"class") => Key::Class,
        _ if is(word, b"isa") => Key::Isa,
        _ if is(word, b"proxy") => Key::Proxy,
        _ if is(word, b"lookup") => Key::Lookup,
        _ if is(word, b"dispatch") => Key::Dispatch,
        _ if is(word, b"parent") => Key::Parent,
        _ if is(word, b"parents") => Key::Parents,
        _ if is(word, b"host") => Key::Host,
        _ if is(word, b"SOMClassMgrObject") => Key::Manager,
        _ if is(word, b"min") => Key::Min,
        _ if is(word, b"max") => Key::Max,
        _ if is(word, b"xor") => Key::Xor,
        _ if is(word, b"wrapadd") => Key::WrapAdd,
        _ => Key::Plain,
    }
}

#[tactic(auto, unfolding(crate::specs::Words::statement_word))]
fn statement_word(word: &[u8]) -> Key
    ensures { result ≡ spec.statement_word word.now }
{
    match word {
        _ if is(word, b"var") => Key::Var,
        _ if is(word, b"if") => Key::If,
        _ if is(word, b"else") => Key::Else,
        _ if is(word, b"while") => Key::While,
        _ if is(word, b"return") => Key::Return,
        _ if is(word, b"print") => Key::Print,
        _ if is(word, b"free") => Key::Free,
        _ if is(word, b"and") => Key::And,
        _ if is(word, b"or") => Key::Or,
        _ if is(word, b"not") => Key::Not,
        _ if is(word, b"as") => Key::As,
        _ if is(word, b"self") => Key::Me,
        _ if is(word, b"somThis") => Key::SomThis,
        _ if is(word, b"nil") => Key::Nil,
        _ if is(word, b"main") => Key::Main,
        _ => expression_word(word),
    }
}

#[tactic(auto, unfolding(crate::specs::Words::interface_word))]
fn interface_word(word: &[u8]) -> Key
    ensures { result ≡ spec.interface_word word.now }
{
    match word {
        _ if is(word, b"interface") => Key::Interface,
        _ if is(word, b"attribute") => Key::Attribute,
        _ if is(word, b"readonly") => Key::Readonly,
        _ if is(word, b"in") => Key::In,
        _ if is(word, b"implementation") => Key::Implementation,
        _ if is(word, b"releaseorder") => Key::ReleaseOrder,
        _ if is(word, b"metaclass") => Key::Metaclass,
        _ if is(word, b"majorversion") => Key::MajorVersion,
        _ if is(word, b"minorversion") => Key::MinorVersion,
        _ if is(word, b"filestem") => Key::FileStem,
        _ if is(word, b"dllname") => Key::DllName,
        _ if is(word, b"functionprefix") => Key::FunctionPrefix,
        _ if is(word, b"override") => Key::Override,
        _ if is(word, b"namelookup") => Key::NameLookup,
        _ if is(word, b"offset") => Key::Offset,
        _ if is(word, b"select") => Key::Select,
        _ => statement_word(word),
    }
}

#[tactic(auto, unfolding(crate::specs::Words::type_word))]
fn type_word(word: &[u8]) -> Key
    ensures { result ≡ spec.type_word word.now }
{
    match word {
        _ if is(word, b"void") => Key::Void,
        _ if is(word, b"long") => Key::Long,
        _ if is(word, b"boolean") => Key::Boolean,
        _ if is(word, b"string") => Key::Str,
        _ if is(word, b"TRUE") => Key::True,
        _ if is(word, b"FALSE") => Key::False,
        _ => interface_word(word),
    }
}

/// What a word is to grammars.
pub fn key_of(word: &[u8]) -> Key
    ensures { result ≡ spec.key_of word.now }
{
    if is_refused_declaration(word) || is_refused_type(word) || is_refused_modifier(word) {
        return Key::Refused;
    }
    type_word(word)
}

#[tactic(auto, unfolding(crate::specs::Words::sign_of))]
pub(crate) fn sign_of(sign: &[u8]) -> Sign
    ensures { result ≡ spec.sign_of sign.now }
{
    match sign {
        _ if is(sign, b"{") => Sign::OpenBrace,
        _ if is(sign, b"}") => Sign::CloseBrace,
        _ if is(sign, b"(") => Sign::Open,
        _ if is(sign, b")") => Sign::Close,
        _ if is(sign, b":") => Sign::Colon,
        _ if is(sign, b"::") => Sign::DoubleColon,
        _ if is(sign, b";") => Sign::Semicolon,
        _ if is(sign, b",") => Sign::Comma,
        _ if is(sign, b".") => Sign::Dot,
        _ if is(sign, b"=") => Sign::Assign,
        _ if is(sign, b"==") => Sign::Equal,
        _ if is(sign, b"!=") => Sign::NotEqual,
        _ if is(sign, b"<") => Sign::Less,
        _ if is(sign, b"<=") => Sign::LessEqual,
        _ if is(sign, b">") => Sign::Greater,
        _ if is(sign, b">=") => Sign::GreaterEqual,
        _ if is(sign, b"+") => Sign::Plus,
        _ if is(sign, b"-") => Sign::Minus,
        _ if is(sign, b"*") => Sign::Times,
        _ if is(sign, b"/") => Sign::Divide,
        _ if is(sign, b"%") => Sign::Remainder,
        _ if is(sign, b"&") => Sign::Join,
        _ => Sign::Unknown,
    }
}
