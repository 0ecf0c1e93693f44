//! A list without rows that are shown alike.
ghost use Rattle.std.specs.Prelude.{◌≡◌, ◌<◌, IfOk, All, length};
ghost use Rattle.temp_list.specs.Reading.{AreSound};
ghost use Rattle.temp_list.specs.Lists.{IsOver};
ghost use Rattle.project_hash.specs.Distinct.{IsDistinctOf};
ghost use Rattle.project_hash.specs.Shown.{ShowsOnce, with_rows};

use crate::shown::ShownRow;
use indexmap::IndexSet;
use mm_relation::Relations;
use no_memory::NoMemory;
use std::alloc::Global;
use temp_list::TempList;

// The rows of a list in the order of what is shown of them, one of those that are shown alike.
fn shown_once<'a, R: Relations>(
    alloc: Global,
    tables: &'a R,
    list: &'a TempList,
) -> Result<IndexSet<ShownRow<'a, R>>, NoMemory>
    requires sound { AreSound (R.tables tables.now) }
    requires over { IsOver (R.tables tables.now) list.now }
    ensures { IfOk result (λ rows. ShowsOnce (R.tables tables.now) list.now rows.keys) }
{
    let mut rows = IndexSet::new(alloc);
    for place in 0..list.len() {
        rows.insert(ShownRow::new(tables, list, place))?;
    }
    rows.sort()?;
    Ok(rows)
}

// The list with these rows in the place of its own.
fn list_of<R: Relations>(
    alloc: Global,
    list: &TempList,
    rows: &[ShownRow<'_, R>],
) -> Result<TempList, NoMemory>
    requires some { 0 < length list.now.sources }
    requires wide { All (λ row. length row.references ≡ length list.now.sources) rows.now }
    ensures { IfOk result (λ l. l ≡ with_rows list.now rows.now) }
{
    let mut picked = TempList::new(alloc, list.sources())?;
    for row in rows {
        picked.push(row.references())?;
    }
    picked.describe(Vec::from_slice(alloc, list.columns())?);
    Ok(picked)
}

/// The list with one of those of its rows that are shown alike, in the order of what is shown: by the first column, then by
/// the second, and so on.
#[tactic(auto, using(crate::proofs::Picked::picked_wide))]
pub fn distinct<R: Relations>(
    alloc: Global,
    tables: &R,
    list: TempList,
) -> Result<TempList, NoMemory>
    requires sound { AreSound (R.tables tables.now) }
    requires over { IsOver (R.tables tables.now) list }
    ensures distinct { IfOk result (IsDistinctOf (R.tables tables.now) list) }
    ensures over { IfOk result (IsOver (R.tables tables.now)) }
{
    let rows = shown_once(alloc, tables, &list)?;
    list_of(alloc, &list, rows.as_slice())
}
