//! Laws of the grammar and of what is answered.

ghost use Rattle.som_idl.specs.Answer.{IsAnswer};
ghost use Rattle.som_idl.specs.Grammar.{IsFile};
ghost use Rattle.som_ast.specs.declared.interface.IdlFile.{IdlFile};
ghost use Rattle.som_lex.specs.declared.token.Tokens.{Tokens};
ghost use Rattle.som_parse.specs.Seen.{text_at};
ghost use Rattle.som_parse.specs.declared.token.Token.{Token};
ghost use Rattle.som_parse.specs.declared.fault.SyntaxFault.{SyntaxFault};
ghost use Rattle.som_parse.specs.declared.fault.SyntaxFault.TheVariants as faults;
ghost use Rattle.std.specs.Prelude.{◌≡◌, ◌≢◌, List, Result};

/// The grammar derives no tokens as two trees.
pub fn one_tree()
    ensures { (t : Tokens) (u : List Token) (a b : IdlFile) → IsFile (text_at t) u a → IsFile (text_at t) u b → a ≡ b }
{}

/// There is one answer for a text, but for want of memory: so its tree is answered exactly where it has one, and else the one
/// first fault.
pub fn one_answer()
    ensures { (t : Tokens) (a b : Result IdlFile SyntaxFault) → IsAnswer t a → IsAnswer t b → a ≢ Err faults.NoMemory → b ≢ Err faults.NoMemory → a ≡ b }
{}

/// Each list of tokens has an answer that isn't want of memory.
pub fn some_answer()
    ensures { (t : Tokens) → (a : Result IdlFile SyntaxFault) × IsAnswer t a × (a ≢ Err faults.NoMemory) }
{}
