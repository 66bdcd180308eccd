//! Laws of clients that take turns.

ghost use Rattle.som_turn_laws.specs.Clients.{IsMain};
ghost use Rattle.som_turn_laws.specs.Turns.{Clients, alone_lines, client_prefix, from_client, line_shown, lines_after, tagged, turn_lines, turns_lines, turns_of, turns_text};
ghost use Rattle.som_semantics.specs.RunText.{with_prefix};
ghost use Rattle.std.specs.List.{concat};
ghost use Rattle.std.specs.Prelude.{◌≡◌, ◌++◌, ◌∷◌, [], ℕ, List as Seq, map};

/// What a client prints among others is what it prints alone with as many units as it has had turns, and
/// nothing without a turn: whatever the others are and do, and in whatever order they take their turns.
pub fn alone_law()
    ensures { (clients : Clients) (i : ℕ) → IsMain (clients i) → (turns : Seq ℕ) →
        from_client i (turns_lines clients turns) ≡ tagged i (alone_lines (clients i) (turns_of i turns)) }
{}

/// As they are shown, its lines are those of it alone, each after its prefix.
pub fn shown_law()
    ensures { (clients : Clients) (i : ℕ) → IsMain (clients i) → (turns : Seq ℕ) →
        map line_shown (from_client i (turns_lines clients turns))
        ≡ with_prefix (client_prefix i) (alone_lines (clients i) (turns_of i turns)) }
{}

/// Lines come in the order of the turns: those of some turns stand first, whatever turns come after them.
/// So each turn more adds its own lines at the end, in the text each after its client's prefix.
pub fn order_law()
    ensures lines { (clients : Clients) (turns more : Seq ℕ) →
        turns_lines clients (turns ++ more) ≡ turns_lines clients turns ++ lines_after clients turns more }
    ensures next { (clients : Clients) (turns : Seq ℕ) (i : ℕ) → turns_lines clients (turns ++ i ∷ [])
        ≡ turns_lines clients turns ++ tagged i (turn_lines (clients i) (turns_of i turns)) }
    ensures next_text { (clients : Clients) (turns : Seq ℕ) (i : ℕ) → turns_text clients (turns ++ i ∷ [])
        ≡ turns_text clients turns ++ concat (with_prefix (client_prefix i) (turn_lines (clients i) (turns_of i turns))) }
    ensures text { (clients : Clients) (turns more : Seq ℕ) → (rest : Seq ℕ) ×
        (turns_text clients (turns ++ more) ≡ turns_text clients turns ++ rest) }
{}
