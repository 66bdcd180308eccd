//! Which preprocessor directives are ignored: `include`, `define`, and the guards around them.

ghost use Rattle.std.specs.Prelude.{◌≡◌, ◌≤◌, ◌||◌, length, codes};
ghost use Rattle.std.specs.List.{prefix_len};
ghost use Rattle.std.specs.Str.{bytes_eq};
ghost use Rattle.som_lex.specs.Alphabet.{is_inner_blank as is_inner_blank_of};
ghost use Rattle.som_lex.specs.Ignored as spec;

use crate::alphabet::{is_inner_blank, is_letter};
use crate::word::word_len;

/// Whether a directive is accepted and then ignored; every other one is refused by each grammar.
pub fn is_ignored(directive: &[u8]) -> bool
    ensures { result ≡ spec.is_ignored directive.now }
{
    match directive {
        [] => false,
        [first, others @ ..] => {
            *first == b'#' && !goes_on(others) && has_ignored_words(after_blanks(others))
        }
    }
}

fn goes_on(bytes: &[u8]) -> bool
    ensures { result ≡ spec.goes_on bytes.now }
{
    match bytes {
        [] => false,
        [.., last] => *last == b'\\',
    }
}

fn has_ignored_words(bytes: &[u8]) -> bool
    ensures { result ≡ spec.has_ignored_words bytes.now }
{
    let word = first_word(bytes);
    let (_, rest) = bytes.split_at(word.len());
    let rest = after_blanks(rest);
    is_text(word, b"include")
        || is_text(word, b"define")
        || is_text(word, b"endif")
        || (is_text(word, b"ifndef") && starts_word(rest))
        || (is_text(word, b"ifdef") && is_profile_name(first_word(rest)))
}

// Whether a word after `ifdef` is one of those that the product asks for.
fn is_profile_name(word: &[u8]) -> bool
    ensures { result ≡ (bytes_eq word.now (codes "__SOMIDL__") || bytes_eq word.now (codes "__PRIVATE__")) }
{
    is_text(word, b"__SOMIDL__") || is_text(word, b"__PRIVATE__")
}

fn is_text(word: &[u8], expected: &[u8]) -> bool
    ensures { result ≡ bytes_eq word.now expected.now }
{
    word == expected
}

fn starts_word(bytes: &[u8]) -> bool
    ensures { result ≡ spec.starts_word bytes.now }
{
    match bytes {
        [] => false,
        [first, ..] => is_letter(*first),
    }
}

fn first_word(bytes: &[u8]) -> &[u8]
    ensures value { result.now ≡ spec.first_word bytes.now }
    ensures within { length result.now ≤ length bytes.now }
{
    if starts_word(bytes) {
        let (word, _) = bytes.split_at(word_len(bytes));
        word
    } else {
        &[]
    }
}

fn after_blanks(bytes: &[u8]) -> &[u8]
    ensures { result.now ≡ spec.after_blanks bytes.now }
{
    let (_, rest) = bytes.split_at(blanks_len(bytes));
    rest
}

fn blanks_len(bytes: &[u8]) -> usize
    ensures value { result ≡ prefix_len is_inner_blank_of bytes.now }
    ensures within { result ≤ length bytes.now }
{
    bytes
        .iter()
        .take_while(|byte| is_inner_blank(**byte))
        .count()
}
