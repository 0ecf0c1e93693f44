//! The values that are bound to a statement's holes.
ghost use Rattle.std.specs.Prelude.{◌≡◌, ◌≢◌, ◌<◌, ◌≤◌, Err, IfOk, IfErr, OnOk, OnErr, length, replicate, slice_set};
ghost use Rattle.std.specs.List.{All};
ghost use Rattle.plain_tables.specs.ResolvedLaws.{HasWidth};
ghost use Rattle.plain_tables.specs.declared.value.Value.TheVariants as value;
ghost use Rattle.mm_prepared.specs.Cells.{IsSmall, cell_value};
ghost use Rattle.mm_prepared.specs.declared.declined.Declined.TheVariants as declined;

use crate::declined::Declined;
use crate::lent_value::LentValue;
use no_memory::NoMemory;
use plain_tables::{Sequence, Value};
use std::alloc::Global;
use std::marker::Model;

/// The values of a statement's holes, by their places: null until one is bound, which stays until another is. Integers have 64 bits.
#[derive(Drop)]
pub struct Bound {
    values: Vec<Value>,
}

impl Model for Bound {
    ghost use Rattle.std.specs.Prelude.{List};
    ghost use Rattle.std.specs.List.{All};
    ghost use Rattle.plain_tables.specs.ResolvedLaws.{HasWidth};
    ghost use Rattle.plain_tables.specs.declared.value.Value.{Value as PlainValue};

    ghost Value = { List PlainValue };

    ghost view = { λ b. b.values.items };

    ghost invariant = { λ b. All HasWidth b.values.items };
}

impl Bound {
    /// A null for each of so many holes.
    pub fn new(alloc: Global, places: usize) -> Result<Bound, NoMemory>
        ensures { IfOk result (λ bound. bound ≡ replicate places value.Null) }
    {
        let mut values = Vec::with_capacity(alloc, places)?;
        while values.len() < places {
            values.push(Value::Null)?;
        }
        Ok(Bound { values })
    }

    /// The values, by their places.
    pub fn as_slice(&self) -> &[Value]
        ensures values { result.now ≡ self.now }
        ensures width { All HasWidth self.now }
    {
        self.values.as_slice()
    }

    /// The values, by their places, as one's own. They are moved.
    pub fn into_row(self) -> Sequence<Value>
        ensures { result ≡ self }
    {
        let Bound { values } = self;
        Sequence::from_vec(values)
    }

    /// What memory for the values is taken from.
    pub fn allocator(&self) -> Global {
        *self.values.allocator()
    }

    /// Binds a value to the hole of a place. A text is copied. Only a text of more than 14 bytes needs memory.
    #[inline]
    pub fn bind(&mut self, place: usize, cell: LentValue<'_>) -> Result<(), Declined>
        ensures bound { OnOk result (self.new ≡ slice_set self.old place (cell_value cell.entry)) }
        ensures within { OnOk result (place < length self.old) }
        ensures past { length self.old ≤ place → result ≡ Err declined.NoSuchPlace }
        ensures declined { IfErr result (λ e. e ≢ declined.NoMemory → length self.old ≤ place) }
        ensures small { IsSmall cell.entry → result ≢ Err declined.NoMemory }
        ensures unchanged { OnErr result (self.new ≡ self.old) }
    {
        if place >= self.values.len() {
            return Err(Declined::NoSuchPlace);
        }
        if let LentValue::Integer(number) = cell {
            self.values[place] = Value::Int(number);
            return Ok(());
        }
        self.bind_other(place, cell)
    }

    // Binds a value that is no integer to the hole of a place that there is.
    #[inline(never)]
    fn bind_other(&mut self, place: usize, cell: LentValue<'_>) -> Result<(), Declined>
        requires within { place < length self.old }
        ensures bound { OnOk result (self.new ≡ slice_set self.old place (cell_value cell.entry)) }
        ensures declined { IfErr result (λ e. e ≡ declined.NoMemory) }
        ensures small { IsSmall cell.entry → result ≢ Err declined.NoMemory }
        ensures unchanged { OnErr result (self.new ≡ self.old) }
    {
        let value = cell.to_value(*self.values.allocator())?;
        self.values[place] = value;
        Ok(())
    }
}
