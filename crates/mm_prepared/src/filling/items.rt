//! What stands in a template, item by item, and what it becomes with values in the holes.
ghost use Rattle.std.specs.Prelude.{◌≡◌, length, map, IfOk, OnOk};
ghost use Rattle.plain_statements.specs.Filling.{slot_value};
ghost use Rattle.plain_statements.specs.Finishing.{filled_assignment, filled_join, filled_source, filled_test};
ghost use Rattle.mm_prepared.specs.Cells.{cell_value};

use crate::lent_value::LentValue;
use no_memory::NoMemory;
use plain_statements::{Slot, SlotAssignment, SlotJoined, SlotSource, SlotTest};
use plain_tables::{Assignment, Joined, Place, Sequence, Source, Test, Value};
use std::alloc::Global;

/// An item of a template.
pub trait Fill {
    ghost use Rattle.std.specs.Prelude.{List};
    ghost use Rattle.plain_tables.specs.declared.value.Value.{Value};

    /// What it becomes.
    type Filled: Drop;

    ghost filled: { List Value → Self → Self.Filled };

    /// Makes a new item of it.
    fn to_filled(&self, alloc: Global, values: &[Value]) -> Result<Self::Filled, NoMemory>
        ensures { IfOk result (λ made. made ≡ filled values.now self.now) };

    /// Changes an item into what it becomes. Numbers need no memory.
    fn fill(&self, alloc: Global, values: &[Value], kept: &mut Self::Filled) -> Result<(), NoMemory>
        ensures { OnOk result (kept.new ≡ filled values.now self.now) };
}

// Changes each item into what one of a template becomes.
fn fill_in_place<S: Fill>(
    kept: &mut [S::Filled],
    alloc: Global,
    values: &[Value],
    items: &[S],
) -> Result<(), NoMemory>
    requires { length kept.old ≡ length items.now }
    ensures { OnOk result (kept.new ≡ map (S.filled values.now) items.now) }
{
    for (place, item) in items.iter().enumerate() {
        item.fill(alloc, values, &mut kept[place])?;
    }
    Ok(())
}

/// What the items of a template become.
pub fn filled_each<S: Fill>(
    alloc: Global,
    values: &[Value],
    items: &[S],
) -> Result<Sequence<S::Filled>, NoMemory>
    ensures { IfOk result (λ made. made ≡ map (S.filled values.now) items.now) }
{
    let mut filled = Vec::new(alloc);
    for item in items {
        filled.push(item.to_filled(alloc, values)?)?;
    }
    Ok(Sequence::from_vec(filled))
}

/// Makes items what those of a template become. Where they are as many, they are changed where they stand.
pub fn fill_each<S: Fill>(
    kept: &mut Sequence<S::Filled>,
    alloc: Global,
    values: &[Value],
    items: &Sequence<S>,
) -> Result<(), NoMemory>
    ensures { OnOk result (kept.new ≡ map (S.filled values.now) items.now) }
{
    if kept.len() == items.len() {
        return fill_in_place(kept.as_mut_slice(), alloc, values, items.as_slice());
    }
    *kept = filled_each(alloc, values, items.as_slice())?;
    Ok(())
}

// The value of a slot, lent. Behind the values there are nulls.
#[inline]
fn value_of<'a>(values: &'a [Value], slot: &'a Slot) -> LentValue<'a>
    ensures { cell_value result ≡ slot_value values.now slot.now }
{
    match slot {
        Slot::Given(value) => LentValue::of(value),
        Slot::Hole(hole) => match values.get(*hole) {
            Some(value) => LentValue::of(value),
            None => LentValue::Null,
        },
    }
}

impl Fill for Slot {
    type Filled = Value;

    ghost filled = { slot_value };

    #[inline]
    fn to_filled(&self, alloc: Global, values: &[Value]) -> Result<Value, NoMemory> {
        value_of(values, self).to_value(alloc)
    }

    #[inline]
    fn fill(&self, alloc: Global, values: &[Value], kept: &mut Value) -> Result<(), NoMemory> {
        match value_of(values, self) {
            LentValue::Integer(number) => *kept = Value::Int(number),
            cell => *kept = cell.to_value(alloc)?,
        }
        Ok(())
    }
}

impl Fill for SlotTest {
    type Filled = Test;

    ghost filled = { filled_test };

    fn to_filled(&self, alloc: Global, values: &[Value]) -> Result<Test, NoMemory> {
        Ok(Test {
            column: self.column,
            op: self.op,
            value: self.slot.to_filled(alloc, values)?,
        })
    }

    #[inline]
    fn fill(&self, alloc: Global, values: &[Value], kept: &mut Test) -> Result<(), NoMemory> {
        kept.column = self.column;
        kept.op = self.op;
        self.slot.fill(alloc, values, &mut kept.value)
    }
}

impl Fill for SlotAssignment {
    type Filled = Assignment;

    ghost filled = { filled_assignment };

    fn to_filled(&self, alloc: Global, values: &[Value]) -> Result<Assignment, NoMemory> {
        Ok(Assignment {
            column: self.column,
            value: self.slot.to_filled(alloc, values)?,
        })
    }

    #[inline]
    fn fill(&self, alloc: Global, values: &[Value], kept: &mut Assignment) -> Result<(), NoMemory> {
        kept.column = self.column;
        self.slot.fill(alloc, values, &mut kept.value)
    }
}

impl Fill for SlotSource {
    type Filled = Source;

    ghost filled = { filled_source };

    fn to_filled(&self, alloc: Global, values: &[Value]) -> Result<Source, NoMemory> {
        Ok(Source {
            table: self.table,
            tests: filled_each(alloc, values, self.tests.as_slice())?,
        })
    }

    #[inline]
    fn fill(&self, alloc: Global, values: &[Value], kept: &mut Source) -> Result<(), NoMemory> {
        kept.table = self.table;
        fill_each(&mut kept.tests, alloc, values, &self.tests)
    }
}

impl Fill for SlotJoined {
    type Filled = Joined;

    ghost filled = { filled_join };

    fn to_filled(&self, alloc: Global, values: &[Value]) -> Result<Joined, NoMemory> {
        Ok(Joined {
            source: self.source.to_filled(alloc, values)?,
            outer: self.outer,
            inner: self.inner,
        })
    }

    fn fill(&self, alloc: Global, values: &[Value], kept: &mut Joined) -> Result<(), NoMemory> {
        kept.outer = self.outer;
        kept.inner = self.inner;
        self.source.fill(alloc, values, &mut kept.source)
    }
}

impl Fill for Place {
    type Filled = Place;

    ghost filled = { λ _ place. place };

    fn to_filled(&self, alloc: Global, values: &[Value]) -> Result<Place, NoMemory> {
        Ok(*self)
    }

    fn fill(&self, alloc: Global, values: &[Value], kept: &mut Place) -> Result<(), NoMemory> {
        *kept = *self;
        Ok(())
    }
}
