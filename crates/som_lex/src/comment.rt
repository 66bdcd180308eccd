//! The lexer of comments: to the end of a line, or between `/*` and `*/`.

ghost use Rattle.std.specs.Prelude.{◌≡◌, ◌≢◌, ◌≤◌, ◌<◌, ◌+◌, ◌^◌, ◌==◌, not, false, ℕ, List, ◌∷◌, length, IfOk};
ghost use Rattle.std.specs.List.{prefix_len};
ghost use Rattle.som_lex.specs.Lexeme.{block_at};

use crate::LexFault;
use crate::lexeme::Lexeme;

// How many bytes stand before the next line feed.
pub(crate) fn line_comment_len(bytes: &[u8]) -> usize
    ensures value { result ≡ prefix_len (λ b. not (b == 10)) bytes.now }
    ensures within { result ≤ length bytes.now }
    ensures some { (b : ℕ) (bs : List ℕ) → bytes.now ≡ b ∷ bs → b ≢ 10 → 0 < result }
{
    bytes.iter().take_while(|byte| **byte != b'\n').count()
}

// A comment between `/*`, which stands at `start`, and `*/`: the bytes after the first two.
#[tactic(auto, unfolding(crate::specs::Lexeme::block_at))]
pub(crate) fn block_comment(start: usize, bytes: &[u8]) -> Result<Lexeme, LexFault>
    requires { start + 2 + length bytes.now < 2 ^ 64 }
    ensures value { result ≡ block_at start false (start + 2) bytes.now }
    ensures within { IfOk result (λ x. (start < x.end) × (x.end ≤ start + 2 + length bytes.now)) }
{
    let mut rest = bytes;
    let mut at = start + 2;
    let mut starred = false;
    while let [byte, others @ ..] = rest {
        if starred && *byte == b'/' {
            return Ok(Lexeme::gap(at + 1));
        }
        starred = *byte == b'*';
        at += 1;
        rest = others;
    }
    Err(LexFault::OpenComment { offset: start })
}
