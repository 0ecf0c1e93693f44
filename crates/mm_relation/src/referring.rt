//! The number of links that name a row.
ghost use Rattle.std.specs.Prelude.{◌≡◌, ◌+◌, ◌-◌, ◌^◌, ◌<◌, ◌≤◌, IsSome, IsTrue};
ghost use Rattle.std.specs.FinMap as finite;
ghost use Rattle.mm_relation.specs.Rows.{referrers_at, with_number};

use crate::rows::Rows;
use part_raw::TupleRef;

// So many links more name the row.
pub fn count_up(rows: &mut Rows, r: TupleRef, n: u64)
    requires held { IsSome (finite.get rows.old.tuples r) }
    requires kept { IsTrue rows.old.aside.counted }
    requires room { referrers_at rows.old.aside.numbers r + n < 2 ^ 64 }
    ensures { rows.new ≡ record rows.old { aside = with_number rows.old.aside r (referrers_at rows.old.aside.numbers r + n) } }
{
    rows.set_referrers(r, *rows.referrers(r) + n);
}

// So many links fewer name the row.
pub fn count_down(rows: &mut Rows, r: TupleRef, n: u64)
    requires held { IsSome (finite.get rows.old.tuples r) }
    requires kept { IsTrue rows.old.aside.counted }
    requires enough { n ≤ referrers_at rows.old.aside.numbers r }
    ensures { rows.new ≡ record rows.old { aside = with_number rows.old.aside r (referrers_at rows.old.aside.numbers r - n) } }
{
    rows.set_referrers(r, *rows.referrers(r) - n);
}
