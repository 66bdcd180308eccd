//! The laws of laid rows, for methods and for variables.

ghost use Rattle.som_class_layout_laws.specs.Laying.{Bodies, IsBody, IsLaid, IsRow, IsScheme, IsToken, Scheme};
ghost use Rattle.som_class_layout_laws.specs.Places.{IsDataRow, IsPlaced, data_place, less, variables};
ghost use Rattle.som_model.specs.Ancestors.{Descends, anc};
ghost use Rattle.som_model.specs.Hierarchy.{Falls, Hierarchy, Tells};
ghost use Rattle.som_model.specs.Resolution.{impl};
ghost use Rattle.som_tables.specs.Rows.{Added, HasRow, HasToken, IsDeclared, SomeHasToken, inherited, row_at};
ghost use Rattle.std.specs.Prelude.{◌≡◌, ◌≢◌, ◌<◌, ◌+◌, ◌∷◌, ◌++◌, ℕ, List as Seq, Option, Some, None, length, slice_get, slice_set};

/// Where no class has a row, the rows are laid. Where the rows are laid, and a class without one gets a row that is made as it is to be,
/// the rows are laid again, in whatever order classes get theirs: all that counts is that its parents have rows. Each token of a proper
/// ancestor is in some parent's row, so that its cell can be replaced.
pub fn laying_law<K>()
    ensures none { (s : Scheme K) (b : Bodies K) (rows : Seq (Option (Added ℕ))) → ((n : ℕ) → row_at rows n ≡ None) → IsLaid s b rows }
    ensures next { (s : Scheme K) → IsScheme s → (old now : Bodies K) (rows : Seq (Option (Added ℕ))) → IsLaid s old rows → (n : ℕ) (a : Added ℕ) →
        ((c : ℕ) (y : K) (t : ℕ × ℕ) → IsBody old c y t → IsBody now c y t) → IsRow s now rows n a → IsDeclared rows n →
        IsLaid s now (slice_set rows n (Some a)) }
    ensures known { (s : Scheme K) → IsScheme s → (b : Bodies K) (rows : Seq (Option (Added ℕ))) → IsLaid s b rows → (n : ℕ) (a : Added ℕ) → IsRow s b rows n a →
        (t : ℕ × ℕ) → IsToken s t → t.0 ≢ n → Descends s.classes (s.key n) (s.method t).class → SomeHasToken rows a.parents t }
{}

/// A row has the token of each method that an ancestor of its class introduces, and the cell is the body of the class that answers.
pub fn bodies_law<K>()
    ensures token { (s : Scheme K) → IsScheme s → (b : Bodies K) (rows : Seq (Option (Added ℕ))) → IsLaid s b rows → (n : ℕ) (t : ℕ × ℕ) →
        HasRow rows n → IsToken s t → Descends s.classes (s.key n) (s.method t).class → HasToken rows n t }
    ensures body { (s : Scheme K) → IsScheme s → (b : Bodies K) (rows : Seq (Option (Added ℕ))) → IsLaid s b rows → (n : ℕ) (t : ℕ × ℕ) →
        HasRow rows n → IsToken s t → Descends s.classes (s.key n) (s.method t).class → (c : ℕ) → Some c ≡ inherited rows n t →
        (y : K) × (impl s.classes (s.method t).has_body (s.method t).chosen (s.method t).class (s.key n) ≡ Some y) × IsBody b c y t }
{}

/// Of rows of places, each less the shift of its row, what `laying_law` says of rows of bodies. Only the shifts of rows that are there
/// count.
pub fn placing_law<K, V>()
    ensures none { (s : Scheme K) (own : K → Seq V) (shift : ℕ → ℕ) (rows : Seq (Option (Added ℕ))) → ((n : ℕ) → row_at rows n ≡ None) → IsPlaced s own shift rows }
    ensures next { (s : Scheme K) → IsScheme s → (own : K → Seq V) (shift : ℕ → ℕ) (rows : Seq (Option (Added ℕ))) → IsPlaced s own shift rows → (n : ℕ) (a : Added ℕ) →
        IsDataRow s own shift rows n a → IsDeclared rows n → IsPlaced s own shift (slice_set rows n (Some a)) }
    ensures known { (s : Scheme K) → IsScheme s → (own : K → Seq V) (shift : ℕ → ℕ) (rows : Seq (Option (Added ℕ))) → IsPlaced s own shift rows → (n : ℕ) (a : Added ℕ) → IsDataRow s own shift rows n a →
        (t : ℕ × ℕ) → IsToken s t → t.0 ≢ n → Descends s.classes (s.key n) (s.key t.0) → SomeHasToken rows a.parents t }
    ensures others { (s : Scheme K) (own : K → Seq V) (shift other : ℕ → ℕ) (rows : Seq (Option (Added ℕ))) → IsPlaced s own shift rows →
        ((n : ℕ) → HasRow rows n → other n ≡ shift n) → IsPlaced s own other rows }
{}

/// At the place of a variable in an object stands that variable, and two variables stand at two places; own ones come first.
pub fn places_law<K, V>()
    ensures variable { (h : Hierarchy K) → Tells h → Falls h → (own : K → Seq V) (x a : K) (i : ℕ) → Descends h x a → i < length (own a) →
        slice_get (variables h own x) (data_place h own x a i) ≡ slice_get (own a) i }
    ensures apart { (h : Hierarchy K) → Tells h → Falls h → (own : K → Seq V) (x a b : K) (i j : ℕ) → Descends h x a → Descends h x b →
        i < length (own a) → j < length (own b) → data_place h own x a i ≡ data_place h own x b j → (a ≡ b) × (i ≡ j) }
    ensures own { (h : Hierarchy K) → Tells h → Falls h → (own : K → Seq V) (x : K) (i : ℕ) → data_place h own x x i ≡ i }
{}

/// The ancestors of a class with a parent are itself, those of its first parent in their order, and others. What stands so much later, in a
/// row whose cells are less by so much more, has the same cell.
pub fn first_parent_law<K>()
    ensures ancestors { (h : Hierarchy K) → Tells h → Falls h → (x p : K) (ps : Seq K) → h.parents x ≡ p ∷ ps → (rest : Seq K) × (anc h x ≡ x ∷ (anc h p ++ rest)) }
    ensures later { (n shift place : ℕ) → less (n + shift) (n + place) ≡ less shift place }
{}
