//! Laws of the lexer: it has exactly one answer, literals mean their bytes and escapes, and which bytes are a word.

ghost use Rattle.std.specs.Prelude.{◌≡◌, ◌↔◌, ◌⊎◌, true, ℕ, List, ◌∷◌, ◌++◌};
ghost use Rattle.som_lex.specs.declared.token.LexToken.{LexToken as Token};
ghost use Rattle.som_lex.specs.declared.fault.LexFault.{LexFault as Fault};
ghost use Rattle.som_lex.specs.Alphabet.{quote};
ghost use Rattle.som_lex.specs.Values.{text_of};
ghost use Rattle.som_lex.specs.Spelling.{FitsLimit, Means, Spells, is_word};
ghost use Rattle.som_lex.specs.declared.token.TokenKind.TheVariants as kinds;
ghost use Rattle.som_lex.specs.Cut.{IsCut, Stops};

/// Whatever its bytes are, a text has one list of tokens or one first fault, and never both.
pub fn one_answer_law()
    ensures some { (source : List ℕ) → ((ts : List Token) × IsCut source 0 ts) ⊎ ((f : Fault) × Stops source 0 f) }
    ensures tokens { (source : List ℕ) (ts us : List Token) → IsCut source 0 ts → IsCut source 0 us → ts ≡ us }
    ensures fault { (source : List ℕ) (f g : Fault) → Stops source 0 f → Stops source 0 g → f ≡ g }
    ensures apart { (source : List ℕ) (ts : List Token) (f : Fault) → IsCut source 0 ts → Stops source 0 f → ⊥ }
{}

/// The text of a literal is what the plain bytes and escapes between its quotes mean.
pub fn literal_law()
    ensures { (inside text rest : List ℕ) → Means inside text → text_of (quote ∷ (inside ++ quote ∷ rest)) ≡ text }
{}

/// Bytes are a word by themselves exactly where they spell one that is within its limit.
pub fn word_law()
    ensures { (bytes : List ℕ) → (is_word bytes ≡ true) ↔ (Spells kinds.Word bytes × FitsLimit kinds.Word bytes) }
{}
