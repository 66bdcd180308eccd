//! Turns that are worked out.

ghost use Rattle.som_turn_laws.specs.Turns.{closing_lines, turns_lines, turns_text};
ghost use Rattle.som_turn_laws.specs.Worked.{line_a, line_b, line_freed, two_breakers, two_printers};
ghost use Rattle.std.specs.Prelude.{◌≡◌, ◌++◌, ◌∷◌, [], codes};

/// Two clients that both print a with their first turn and b with their second: where they take turns, what
/// they print differs from what it is where each takes all of its turns at once.
pub fn printers_law()
    ensures by_turns { turns_lines two_printers (0 ∷ 1 ∷ 0 ∷ 1 ∷ []) ≡
        (0, line_a) ∷ (1, line_a) ∷ (0, line_b) ∷ (1, line_b) ∷ [] }
    ensures at_once { turns_lines two_printers (0 ∷ 0 ∷ 1 ∷ 1 ∷ []) ≡
        (0, line_a) ∷ (0, line_b) ∷ (1, line_a) ∷ (1, line_b) ∷ [] }
    ensures shown { turns_text two_printers (0 ∷ 1 ∷ 0 ∷ 1 ∷ []) ≡
        codes "0: a" ++ 10 ∷ codes "1: a" ++ 10 ∷ codes "0: b" ++ 10 ∷ codes "1: b" ++ 10 ∷ [] }
    ensures differ { turns_text two_printers (0 ∷ 1 ∷ 0 ∷ 1 ∷ []) ≡ turns_text two_printers (0 ∷ 0 ∷ 1 ∷ 1 ∷ []) → ⊥ }
    ensures going { closing_lines two_printers (0 ∷ 1 ∷ []) 2 ≡
        (codes "client 0 going" ++ 10 ∷ []) ∷ (codes "client 1 going" ++ 10 ∷ []) ∷ [] }
    ensures done { closing_lines two_printers (0 ∷ 1 ∷ 0 ∷ 1 ∷ []) 2 ≡
        (codes "client 0 done" ++ 10 ∷ []) ∷ (codes "client 1 done" ++ 10 ∷ []) ∷ [] }
{}

/// Two clients that both come to a fault with their second turn: each fault is told once, with the turn that
/// came to it, however many turns come after.
pub fn breakers_law()
    ensures lines { turns_lines two_breakers (0 ∷ 1 ∷ 0 ∷ 1 ∷ 0 ∷ 1 ∷ []) ≡ (0, line_freed) ∷ (1, line_freed) ∷ [] }
    ensures ends { closing_lines two_breakers (0 ∷ 1 ∷ 0 ∷ 1 ∷ 0 ∷ 1 ∷ []) 2 ≡
        (codes "client 0 fault" ++ 10 ∷ []) ∷ (codes "client 1 fault" ++ 10 ∷ []) ∷ [] }
{}
