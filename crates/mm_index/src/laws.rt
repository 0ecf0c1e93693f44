//! The laws that tie the lists of indexes to bags and to the store. Each is the contract of a function that does nothing.
ghost use Rattle.std.specs.Prelude.{◌≡◌, List, ◌∷◌, length, None, IsSome, All, Contains};
ghost use Rattle.std.specs.FinMap as map;
ghost use Rattle.part_raw.specs.declared.tuple_ref.TupleRef.{TupleRef};
ghost use Rattle.part_raw.specs.Store.{Tuples};
ghost use Rattle.mm_index.specs.Bag.{IsSameBag};
ghost use Rattle.mm_index.specs.Listing.{IsListing};
ghost use Rattle.mm_index.specs.Order.{IsRising, insert_by, remove_by};

use crate::tuple_order::TupleOrder;

/// By a sound order an insert makes one more of the bag, and a removal one fewer.
pub fn a_list_changes_by_one<O: TupleOrder>()
    ensures inserted { (order : O) (r : TupleRef) (xs : List TupleRef) → O.is_sound order → O.covers order r → All (O.covers order) xs
        → ¬ (Contains xs r) → IsSameBag (insert_by (O.cmp order) r xs) (r ∷ xs) }
    ensures removed { (order : O) (r : TupleRef) (xs : List TupleRef) → O.is_sound order → All (O.covers order) xs → IsRising (O.cmp order) xs
        → Contains xs r → IsSameBag xs (r ∷ remove_by (O.cmp order) r xs) }
{}

/// Any two listings of a store are one bag, and as long as the store has tuples.
pub fn listings_are_one_bag<T>()
    ensures one { (tuples : Tuples T) (xs ys : List TupleRef) → IsListing tuples xs → IsListing tuples ys → IsSameBag xs ys }
    ensures count { (tuples : Tuples T) (xs : List TupleRef) → IsListing tuples xs → length xs ≡ map.len tuples }
{}

/// A listing follows its store: with one more after a put, one fewer after a take, and the same after a write.
pub fn listings_follow_their_store<T>()
    ensures put { (tuples : Tuples T) (r : TupleRef) (tuple : T) (xs ys : List TupleRef) → map.get tuples r ≡ None
        → IsSameBag (r ∷ xs) ys → IsListing tuples xs → IsListing (map.insert tuples r tuple) ys }
    ensures taken { (tuples : Tuples T) (r : TupleRef) (xs ys : List TupleRef) → IsSameBag xs (r ∷ ys)
        → IsListing tuples xs → IsListing (map.remove tuples r) ys }
    ensures written { (tuples : Tuples T) (r : TupleRef) (tuple : T) (xs : List TupleRef) → IsSome (map.get tuples r)
        → IsListing tuples xs → IsListing (map.insert tuples r tuple) xs }
{}
