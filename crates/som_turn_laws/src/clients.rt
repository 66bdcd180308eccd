//! Laws of one client, by the units that it has had.

ghost use Rattle.som_turn_laws.specs.Clients.{Client, IsMain, end_after, is_going};
ghost use Rattle.som_turn_laws.specs.Turns.{turn_lines};
ghost use Rattle.som_semantics.specs.Means.{means};
ghost use Rattle.som_model.specs.declared.program.ClientProgram.{ClientProgram};
ghost use Rattle.som_model.specs.declared.program.Release.{Release};
ghost use Rattle.std.specs.Prelude.{◌≡◌, ◌+◌, [], false, ℕ};

/// What a client program means on a release, by units, is a client.
pub fn meaning_law()
    ensures { (r : Release) (p : ClientProgram) → IsMain (means r p) }
{}

/// A client that has ended keeps its end, however many turns it still gets, and none of them adds a line.
pub fn ended_law()
    ensures end { (client : Client) → IsMain client → (n k : ℕ) → is_going (end_after client n) ≡ false →
        end_after client (n + k) ≡ end_after client n }
    ensures lines { (client : Client) → IsMain client → (n k : ℕ) → is_going (end_after client n) ≡ false →
        turn_lines client (n + k) ≡ [] }
{}
