//! The law of pieces.

ghost use Rattle.som_lex.specs.Spans.{AreTokens};
ghost use Rattle.som_lex_laws.specs.Pieces.{ArePieces, Piece, all_apart, bytes_at, seen_in, tokens_of};
ghost use Rattle.som_parse.specs.Seen.{seen, text_at};
ghost use Rattle.std.specs.Prelude.{◌≡◌, ℕ, List, true};

/// Where pieces stay apart side by side, they are the tokens of their text. They are seen as what they spell, and each is found at
/// its place.
pub fn pieces_law()
    ensures tokens { (ps : List Piece) → ArePieces ps → all_apart ps ≡ true → AreTokens (tokens_of ps) }
    ensures seen { (ps : List Piece) → ArePieces ps → seen (tokens_of ps) ≡ seen_in 0 ps }
    ensures bytes { (ps : List Piece) (p : ℕ) → text_at (tokens_of ps) p ≡ bytes_at p ps }
{}
