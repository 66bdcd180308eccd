//! Laws of the grammars and of what is answered.

ghost use Rattle.som_body.specs.Answer.{AreBodies, IsMain, Texts};
ghost use Rattle.som_body.specs.Statements.{IsBodyFile, IsMainFile};
ghost use Rattle.som_ast.specs.declared.body.BodyFile.{BodyFile};
ghost use Rattle.som_ast.specs.declared.body.MainFile.{MainFile};
ghost use Rattle.som_lex.specs.declared.token.Tokens.{Tokens};
ghost use Rattle.som_parse.specs.Seen.{text_at};
ghost use Rattle.som_parse.specs.declared.token.Token.{Token};
ghost use Rattle.som_parse.specs.declared.fault.SyntaxFault.{SyntaxFault};
ghost use Rattle.som_parse.specs.declared.fault.SyntaxFault.TheVariants as faults;
ghost use Rattle.std.specs.Prelude.{◌≡◌, ◌≢◌, List, Result, Err};

/// The grammar derives no tokens as two files of bodies, with whatever levels.
pub fn one_bodies_tree()
    ensures { (t : Tokens) (u : List Token) (a b : BodyFile) → Texts (IsBodyFile (text_at t)) u a → Texts (IsBodyFile (text_at t)) u b → a ≡ b }
{}

/// The grammar derives no tokens as two mains, with whatever levels.
pub fn one_main_tree()
    ensures { (t : Tokens) (u : List Token) (a b : MainFile) → Texts (IsMainFile (text_at t)) u a → Texts (IsMainFile (text_at t)) u b → a ≡ b }
{}

/// There is one answer for a text of bodies, but for want of memory: so its tree is answered exactly where it has one that isn't too
/// deep, and else the one first fault.
pub fn one_bodies_answer()
    ensures { (t : Tokens) (a b : Result BodyFile SyntaxFault) → AreBodies t a → AreBodies t b → a ≢ Err faults.NoMemory → b ≢ Err faults.NoMemory → a ≡ b }
{}

/// There is one answer for a text of a main, but for want of memory.
pub fn one_main_answer()
    ensures { (t : Tokens) (a b : Result MainFile SyntaxFault) → IsMain t a → IsMain t b → a ≢ Err faults.NoMemory → b ≢ Err faults.NoMemory → a ≡ b }
{}

/// Each list of tokens has an answer as bodies that isn't want of memory.
pub fn some_bodies_answer()
    ensures { (t : Tokens) → (a : Result BodyFile SyntaxFault) × AreBodies t a × (a ≢ Err faults.NoMemory) }
{}

/// Each list of tokens has an answer as a main that isn't want of memory.
pub fn some_main_answer()
    ensures { (t : Tokens) → (a : Result MainFile SyntaxFault) × IsMain t a × (a ≢ Err faults.NoMemory) }
{}
