//! The classes of bytes that the lexer tells apart: letters, digits, blanks, signs, escapes.

ghost use Rattle.std.specs.Prelude.{◌≡◌, if◌then◌else◌};
ghost use Rattle.som_lex.specs.Alphabet as spec;
ghost use Rattle.som_lex.specs.Line.{next_is as next_is_of};
ghost use Rattle.som_lex.specs.Lexeme.{starts_double as starts_double_of};

pub(crate) fn is_digit(byte: u8) -> bool
    ensures { result ≡ spec.is_digit byte }
{
    byte.is_ascii_digit()
}

pub(crate) fn is_letter(byte: u8) -> bool
    ensures { result ≡ spec.is_letter byte }
{
    matches!(byte, b'a'..=b'z' | b'A'..=b'Z' | b'_')
}

pub(crate) fn is_word_byte(byte: u8) -> bool
    ensures { result ≡ spec.is_word_byte byte }
{
    matches!(byte, b'a'..=b'z' | b'A'..=b'Z' | b'_' | b'0'..=b'9')
}

pub(crate) fn is_blank(byte: u8) -> bool
    ensures { result ≡ spec.is_blank byte }
{
    matches!(byte, b' ' | b'\t' | b'\n' | 0x0c | b'\r')
}

pub(crate) fn is_inner_blank(byte: u8) -> bool
    ensures { result ≡ spec.is_inner_blank byte }
{
    matches!(byte, b' ' | b'\t' | 0x0c | b'\r')
}

pub(crate) fn is_plain(byte: u8) -> bool
    ensures { result ≡ spec.is_plain byte }
{
    matches!(byte, b'\t' | b' '..=b'~' | 0x80..=0xff) && !matches!(byte, b'"' | b'\\')
}

pub(crate) fn is_escape(byte: u8) -> bool
    ensures { result ≡ spec.is_escape byte }
{
    matches!(byte, b'"' | b'\\' | b'n' | b't')
}

pub(crate) fn is_single(byte: u8) -> bool
    ensures { result ≡ spec.is_single byte }
{
    matches!(
        byte,
        b'{' | b'}'
            | b'('
            | b')'
            | b':'
            | b';'
            | b','
            | b'.'
            | b'='
            | b'<'
            | b'>'
            | b'+'
            | b'-'
            | b'*'
            | b'/'
            | b'%'
            | b'&'
    )
}

pub(crate) fn starts_double(first: u8, others: &[u8]) -> bool
    ensures { result ≡ starts_double_of first others.now }
{
    match others {
        [] => false,
        [second, ..] => {
            (first == b':' && *second == b':')
                || (matches!(first, b'=' | b'!' | b'<' | b'>') && *second == b'=')
        }
    }
}

pub(crate) fn next_is(byte: u8, bytes: &[u8]) -> bool
    ensures { result ≡ next_is_of byte bytes.now }
{
    match bytes {
        [] => false,
        [first, ..] => *first == byte,
    }
}
