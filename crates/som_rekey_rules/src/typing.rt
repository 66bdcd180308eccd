//! What a change of modules keeps of typing: expressions and blocks have the new types under new keys, or break the same rule.

ghost use Rattle.som_model.specs.Named.{expr_names};
ghost use Rattle.som_model.specs.TypedBlocks.{Scope, block_scope};
ghost use Rattle.som_model.specs.Typing.{ClassFacts, CodePlace, expr_type};
ghost use Rattle.som_model.specs.declared.syntax.Block.{Block};
ghost use Rattle.som_model.specs.declared.syntax.Expr.{Expr};
ghost use Rattle.som_rekey_laws.specs.AlikeFacts.{AreFactsAlike};
ghost use Rattle.som_rekey_laws.specs.Apart.{IsApart, KeepsKernel, Names};
ghost use Rattle.som_rekey_laws.specs.Rekeying.{ModuleChange, rekey_block, rekey_expr, rekey_type};
ghost use Rattle.som_rekey_rules.specs.NewTypes.{rekey_expr_type, rekey_place, ruled_map};
ghost use Rattle.som_rekey_rules.specs.NamesAlone.{AreAnswersNamed, AreOf, AreTypesNamed, IsBlockNamed, IsPlaceNamed};
ghost use Rattle.std.specs.Prelude.{◌≡◌, map};

/// An expression that names no other classes has the new type under new keys, or breaks the same rule, by
/// answers that are one but for the keys.
pub fn rekeyed_expression_law()
    ensures { (f : ModuleChange) (names : Names) → KeepsKernel f names → IsApart f names →
        (old new : ClassFacts) → AreFactsAlike f names old new → AreAnswersNamed names old →
        (at : CodePlace) → IsPlaceNamed names at → (scope : Scope) → AreTypesNamed names scope →
        (e : Expr) → AreOf names (expr_names e) →
        expr_type new (rekey_place f at) (map (rekey_type f) scope) (rekey_expr f e) ≡ ruled_map (rekey_expr_type f) (expr_type old at scope e) }
{}

/// A block that names no other classes leaves the new scope under new keys, or breaks the same rule.
pub fn rekeyed_block_law()
    ensures { (f : ModuleChange) (names : Names) → KeepsKernel f names → IsApart f names →
        (old new : ClassFacts) → AreFactsAlike f names old new → AreAnswersNamed names old →
        (at : CodePlace) → IsPlaceNamed names at → (scope : Scope) → AreTypesNamed names scope →
        (b : Block) → IsBlockNamed names b →
        block_scope new (rekey_place f at) (rekey_block f b) (map (rekey_type f) scope) ≡ ruled_map (map (rekey_type f)) (block_scope old at b scope) }
{}
