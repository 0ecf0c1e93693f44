//! How many keys a search compares, and that rows can be owed and reserved.
//!
//! The contract of `find_key_counted` bounds the number from above. That a search compares at all as often as it has to, no
//! contract says, nor that there is memory for what is owed or reserved.
ghost use Rattle.std.specs.Prelude.{◌≡◌, ◌∷◌, [], IfOk, length};
ghost use Rattle.plain_tables.specs.declared.value.Value.TheVariants.{Int};
ghost use Rattle.mm_relation.specs.declared.row.Cell.TheVariants.{Held};
ghost use Rattle.mm_relation.specs.State.{IsCurrent, linked_keys};

use mm_relation::{Relation, Relations, RowRefusal, StoredCell, TableNumber};
use no_memory::NoMemory;
use plain_tables::{ColKind, Column, Schema, Sequence, Text, Value};
use std::alloc::Global;

const KEYS: u32 = 1_000;

// The tables that links lead into.
#[derive(Drop)]
struct Tables<'a> {
    relations: &'a [Relation],
}

impl<'a> Relations for Tables<'a> {
    ghost tables = { λ t. t.relations.now };

    fn at(&self, table: TableNumber) -> &Relation {
        &self.relations[table.0]
    }
}

// A relation of keys alone, with no rows.
fn no_keys(alloc: Global) -> Result<Relation, NoMemory>
    ensures current { IfOk result (λ relation. IsCurrent (linked_keys relation.targets []) relation) }
    ensures narrow { IfOk result (λ relation. length relation.targets ≡ 1) }
    ensures settled { IfOk result (λ relation. relation.owed ≡ 0) }
{
    let mut columns = Sequence::new(alloc);
    columns.push(Column {
        name: Text::from_str(alloc, "id")?,
        kind: ColKind::Int,
    })?;
    Relation::new(alloc, Schema { columns })
}

// The cells of a row of this key alone.
fn cells(alloc: Global, key: i64) -> Result<Vec<StoredCell>, NoMemory>
    ensures { IfOk result (λ cells. cells.items ≡ Held (Int key) ∷ []) }
{
    let mut cells = Vec::new(alloc);
    cells.push(StoredCell::held(Value::Int(key)))?;
    Ok(cells)
}

fn put_key(alloc: Global, relation: &mut Relation, key: i64) -> Result<(), RowRefusal>
    requires current { IsCurrent (linked_keys relation.old.targets []) relation.old }
    requires narrow { length relation.old.targets ≡ 1 }
    ensures current { IsCurrent (linked_keys relation.new.targets []) relation.new }
    ensures narrow { length relation.new.targets ≡ 1 }
{
    let Ok(mut cells) = cells(alloc, key) else {
        return Err(RowRefusal::NoMemory);
    };
    let none = Tables { relations: &[] };
    relation.insert_row(&none, &mut cells)?;
    Ok(())
}

// Puts in the keys from 0 on, in another order.
fn put_keys(alloc: Global, relation: &mut Relation) -> Result<(), RowRefusal>
    requires current { IsCurrent (linked_keys relation.old.targets []) relation.old }
    requires narrow { length relation.old.targets ≡ 1 }
{
    for number in 0..KEYS {
        put_key(alloc, relation, i64::from(number * 389 % KEYS))?;
    }
    Ok(())
}

// How many keys are compared in a search for this one.
fn compared(relation: &Relation, key: u32) -> u64 {
    let key = Value::Int(i64::from(key));
    relation.find_key_counted(&key.sought()).1
}

// The greatest number of comparisons in a search for one of these keys.
fn most_compared(relation: &Relation) -> u64 {
    let mut most = 0;
    for key in 0..KEYS {
        most = compared(relation, key).max(most);
    }
    most
}

// No search tells 1,000 keys apart by fewer than ten comparisons.
#[test]
fn a_search_counts_what_it_compares(rt: HostRuntime) {
    let mut relation = no_keys(rt.alloc()).expect(&rt, "memory");
    put_keys(rt.alloc(), &mut relation).expect(&rt, "memory");
    assert!(&rt; most_compared(&relation) >= 10);
}

// Where there is memory, rows are owed.
#[test]
fn rows_are_owed(rt: HostRuntime) {
    let mut relation = no_keys(rt.alloc()).expect(&rt, "memory");
    relation.owe(2).expect(&rt, "memory");
    assert!(&rt; relation.owed() == 2);
}

// Where there is memory, there is some for many rows before the first of them comes in.
#[test]
fn rows_are_reserved(rt: HostRuntime) {
    let mut relation = no_keys(rt.alloc()).expect(&rt, "memory");
    relation.reserve_rows(1_000).expect(&rt, "memory");
    assert!(&rt; relation.len() == 0 && relation.slots() == 1_024);
}
