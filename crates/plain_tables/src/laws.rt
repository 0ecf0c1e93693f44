//! The laws of the definitions. Each is the contract of a function that does nothing.

ghost use Rattle.std.specs.Prelude.{◌≡◌, ◌↔◌, ℕ, ℤ, Some, None, FitsSigned};
ghost use Rattle.std.specs.Int.{w64};
ghost use Rattle.std.specs.Cmp.{IsTotalOrder};
ghost use Rattle.std.specs.declared.cmp.Ordering.TheVariants.{Less, Equal};
ghost use Rattle.plain_tables.specs.declared.value.Value.{Value};
ghost use Rattle.plain_tables.specs.declared.value.Value.TheVariants.{Int};
ghost use Rattle.plain_tables.specs.Values.{value_cmp};
ghost use Rattle.plain_tables.specs.Stored.{link_value, link_number};
ghost use Rattle.plain_tables.specs.Hashes.{hash_of};

/// The order of values is total, and values that compare alike are one.
pub fn values_are_ordered()
    ensures total { IsTotalOrder value_cmp }
    ensures exact { (x y : Value) → (value_cmp x y ≡ Equal) ↔ (x ≡ y) }
{}

/// A link's number is read back, and links are ordered by their numbers, behind every integer of 64 bits.
pub fn links_are_integers()
    ensures read_back { (n : ℕ) → link_number (link_value n) ≡ Some n }
    ensures above { (n : ℕ) (z : ℤ) → FitsSigned w64 z → value_cmp (Int z) (link_value n) ≡ Less }
    ensures alone { (z : ℤ) → FitsSigned w64 z → link_number (Int z) ≡ None }
{}

/// Equal values have equal hashes.
pub fn equal_values_hash_alike()
    ensures { (x y : Value) → value_cmp x y ≡ Equal → hash_of x ≡ hash_of y }
{}
