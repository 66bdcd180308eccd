//! Laws of ancestors, descent, resolution of methods, names, keys and release orders.

ghost use Rattle.som_model.specs.Ancestors.{Descends, anc, descends};
ghost use Rattle.som_model.specs.EffectiveOrder.{effective_order};
ghost use Rattle.som_model.specs.Hierarchy.{Falls, Hierarchy, Tells};
ghost use Rattle.som_model.specs.Keys.{same_key};
ghost use Rattle.som_model.specs.Lists.{Mem, doubles, find, first, firsts, joined, or_else, some};
ghost use Rattle.som_model.specs.Resolution.{Chooses, answer, byname, impl, inherits};
ghost use Rattle.som_model.specs.declared.key.ClassKey.{ClassKey};
ghost use Rattle.som_model_laws.specs.First.{IsFirst};
ghost use Rattle.som_model_laws.specs.Added.{IsThinned, added};
ghost use Rattle.std.specs.Option.{option_and_then};
ghost use Rattle.std.specs.Prelude.{◌≡◌, ◌↔◌, ◌∷◌, [], ℕ, List, Bool, true, false, if◌then◌else◌, Option, Some, None, IsSome, map, take, length};

/// The ancestors of a class are the classes that it descends from, and the test of descent tells them.
pub fn ancestors_law<K>()
    ensures members { (h : Hierarchy K) → Falls h → Tells h → (x a : K) →
        Mem a (anc h x) ↔ Descends h x a }
    ensures test { (h : Hierarchy K) → Falls h → Tells h → (x a : K) →
        (descends h x a ≡ true) ↔ Descends h x a }
{}

/// A class descends from another where it is that class, or some parent of it descends from it.
pub fn descends_step_law<K>()
    ensures { (h : Hierarchy K) → Falls h → Tells h → (x a : K) →
        descends h x a ≡ (if h.same a x then true else some (λ p. descends h p a) (h.parents x)) }
{}

/// The ancestors are a class, and then the ancestors of its parents from left to right, first occurrences
/// kept.
pub fn ancestors_step_law<K>()
    ensures { (h : Hierarchy K) → Falls h → (x : K) →
        anc h x ≡ firsts h.same (x ∷ joined (map (anc h) (h.parents x))) }
{}

/// Among its ancestors a class is the first, and none stands twice.
pub fn ancestors_once_law<K>()
    ensures once { (h : Hierarchy K) → Tells h → (x : K) → doubles h.same [] (anc h x) ≡ [] }
    ensures itself { (h : Hierarchy K) → (x : K) → first (anc h x) ≡ Some x }
{}

/// Where a class descends from the one that introduces a method with a body, some class answers: an
/// ancestor that has a body, and that descends from the introducing one too. A class may have chosen one
/// of its parents that descend from it.
pub fn implementation_law<K>()
    ensures exists { (h : Hierarchy K) → Falls h → Tells h → (has_body : K → Bool) → (chosen : K → Option K) → (a x : K) →
        Chooses h chosen a → has_body a ≡ true → Descends h x a → IsSome (impl h has_body chosen a x) }
    ensures has_body { (h : Hierarchy K) → (has_body : K → Bool) → (chosen : K → Option K) → (a x y : K) →
        impl h has_body chosen a x ≡ Some y → has_body y ≡ true }
    ensures above { (h : Hierarchy K) → (has_body : K → Bool) → (chosen : K → Option K) → (a x y : K) →
        Chooses h chosen a → impl h has_body chosen a x ≡ Some y → Descends h x y }
    ensures below { (h : Hierarchy K) → Falls h → Tells h → (has_body : K → Bool) → (chosen : K → Option K) → (a x y : K) →
        Chooses h chosen a → Descends h x a → impl h has_body chosen a x ≡ Some y → Descends h y a }
{}

/// A class with a body answers itself, and another what it inherits: the answer of the parent that it
/// chose, and where it chose none, of the first parent that descends from the introducing class and has one.
pub fn implementation_step_law<K>()
    ensures { (h : Hierarchy K) → Falls h → (has_body : K → Bool) → (chosen : K → Option K) → (a x : K) →
        Chooses h chosen a →
        impl h has_body chosen a x ≡ (if has_body x then Some x else
        inherits h a (impl h has_body chosen a) (chosen x) (h.parents x)) }
{}

/// Where the introducing class has a body, a class without one has the answer of the parent that it chose,
/// and where it chose none, of the leftmost parent that descends from the introducing class. No other
/// parent is asked.
pub fn implementation_leftmost_law<K>()
    ensures { (h : Hierarchy K) → Falls h → Tells h → (has_body : K → Bool) → (chosen : K → Option K) → (a x : K) →
        Chooses h chosen a → has_body a ≡ true →
        impl h has_body chosen a x ≡ (if has_body x then Some x else
        option_and_then (impl h has_body chosen a) (or_else (chosen x) (find (λ p. descends h p a) (h.parents x)))) }
{}

/// Where only classes below the introducing one have bodies, a class that has one answers itself, and
/// another what it inherits: nothing where no parent has an answer.
pub fn answer_step_law<K>()
    ensures { (h : Hierarchy K) → Falls h → Tells h → (has_body : K → Bool) → (chosen : K → Option K) → (a x : K) →
        Chooses h chosen a → (has_body x ≡ true → Descends h x a) →
        answer h has_body chosen a x ≡
        or_else (if has_body x then Some x else None) (inherits h a (impl h has_body chosen a) (chosen x) (h.parents x)) }
{}

/// A name means the method of the first ancestor that introduces it, and nothing where none does.
pub fn byname_law<K>()
    ensures found { (h : Hierarchy K) → (introduces : K → Bool) → (x a : K) →
        (byname h introduces x ≡ Some a) ↔ IsFirst introduces (anc h x) a }
    ensures none { (h : Hierarchy K) → (introduces : K → Bool) → (x : K) →
        (byname h introduces x ≡ None) ↔ ((a : K) → Mem a (anc h x) → introduces a ≡ false) }
{}

/// The test on keys tells them apart.
pub fn key_law()
    ensures { (a b : ClassKey) → (same_key a b ≡ true) ↔ (a ≡ b) }
{}

/// An effective order has the listed names first, and after them, in their order, the introduced names that
/// the list misses.
pub fn effective_order_law()
    ensures listed { (listed introduced : List (List ℕ)) →
        take (length listed) (effective_order listed introduced) ≡ listed }
    ensures introduced { (listed introduced : List (List ℕ)) → (name : List ℕ) →
        Mem name introduced → Mem name (effective_order listed introduced) }
    ensures once { (listed introduced : List (List ℕ)) → (name : List ℕ) →
        Mem name listed → Mem name (added listed introduced) → ⊥ }
    ensures in_order { (listed introduced : List (List ℕ)) →
        IsThinned (added listed introduced) introduced }
{}
