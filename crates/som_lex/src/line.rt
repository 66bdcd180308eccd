//! Line ends in a source text, and whether a place is the first on its line but for blanks.

ghost use Rattle.std.specs.Prelude.{◌≡◌, ◌≤◌, ◌<◌, ◌+◌, ℕ, List, ◌∷◌, length};
ghost use Rattle.som_lex.specs.Alphabet.{hash};
ghost use Rattle.som_lex.specs.Line.{line_end, line_ends as line_ends_of, fresh_after as fresh_after_of};

use crate::alphabet::next_is;

fn line_ends(byte: u8, others: &[u8]) -> bool
    ensures { result ≡ line_ends_of (byte ∷ others.now) }
{
    byte == b'\n' || (byte == b'\r' && next_is(b'\n', others))
}

// The first place at which the line ends.
#[tactic(auto, unfolding(crate::specs::Line::line_end))]
pub(crate) fn line_len(bytes: &[u8]) -> usize
    ensures value { result ≡ line_end bytes.now }
    ensures within { result ≤ length bytes.now }
    ensures some { (bs : List ℕ) → bytes.now ≡ hash ∷ bs → 0 < result }
{
    let mut rest = bytes;
    let mut len = 0usize;
    while let [byte, others @ ..] = rest {
        if line_ends(*byte, others) {
            return len;
        }
        len += 1;
        rest = others;
    }
    len
}

// Whether only spaces and tabs stand on the line after these bytes, where `fresh` says it before them.
pub(crate) fn fresh_after(fresh: bool, bytes: &[u8]) -> bool
    ensures { result ≡ fresh_after_of fresh bytes.now }
{
    bytes.iter().fold(fresh, |fresh, byte| {
        *byte == b'\n' || (fresh && matches!(*byte, b' ' | b'\t'))
    })
}
