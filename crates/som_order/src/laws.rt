//! States what the first difference of two release orders says: that one begins the other, or where it parts.

ghost use Rattle.som_order.specs.Difference.{IsPrefix, PartsAt, first_difference};
ghost use Rattle.std.specs.Prelude.{◌≡◌, ◌↔◌, List, ℕ, Some, None};

/// There is no first difference exactly where the old names begin the new ones, and it is at a place exactly
/// where the names before the place are equal and at it the new name is missing or differs.
pub fn first_difference_law()
    ensures none { (olds news : List (List ℕ)) → (first_difference 0 olds news ≡ None) ↔ IsPrefix olds news }
    ensures some { (olds news : List (List ℕ)) → (place : ℕ) →
        (first_difference 0 olds news ≡ Some place) ↔ PartsAt olds news place }
{}
