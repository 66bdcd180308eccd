//! Keywords, punctuation and the classified tokens that the parsers read.

/// What a word is: the words that a grammar treats specially, and all others.
#[derive(Clone, Copy, PartialEq, Eq)]
pub enum Key {
    /// No grammar treats it specially.
    Plain,
    /// A word that no interface file may have.
    Refused,
    // types, and words of both grammars
    Void,
    Long,
    Boolean,
    Str,
    True,
    False,
    // words of interface files
    Interface,
    Attribute,
    Readonly,
    In,
    Implementation,
    ReleaseOrder,
    Metaclass,
    MajorVersion,
    MinorVersion,
    FileStem,
    DllName,
    FunctionPrefix,
    Override,
    NameLookup,
    Offset,
    Select,
    // words of method bodies
    Var,
    If,
    Else,
    While,
    Return,
    Print,
    Free,
    And,
    Or,
    Not,
    As,
    Me,
    SomThis,
    Nil,
    Length,
    TextOf,
    New,
    Class,
    Isa,
    Proxy,
    Lookup,
    Dispatch,
    Parent,
    Parents,
    Host,
    Manager,
    Main,
    Min,
    Max,
    Xor,
    WrapAdd,
}

#[derive(Clone, Copy, PartialEq, Eq)]
pub enum Sign {
    OpenBrace,
    CloseBrace,
    Open,
    Close,
    Colon,
    DoubleColon,
    Semicolon,
    Comma,
    Dot,
    Assign,
    Equal,
    NotEqual,
    Less,
    LessEqual,
    Greater,
    GreaterEqual,
    Plus,
    Minus,
    Times,
    Divide,
    Remainder,
    Join,
    /// Not one of the signs above, which no text has.
    Unknown,
}

/// A token as grammars see it. A word and a literal have their place in the list of all tokens.
#[derive(Clone, Copy)]
pub enum Token {
    Word(Key, usize),
    Number(u32),
    Literal(usize),
    Mark(Sign),
    /// A directive that isn't ignored, which fits nowhere.
    Directive,
}
