//! The command that a statement is with values in its holes.

use no_memory::NoMemory;
use plain_statements::{Slot, SlotCond, SlotSetting, Statement};
use plain_tables::{Command, Cond, Items, Join, Sequence, Setting, Text, Value};
use std::alloc::Global;

/// Values for the holes of a statement, by their places. Behind them there are nulls.
#[derive(Clone, Copy)]
pub struct Filling<'a> {
    alloc: Global,
    values: &'a [Value],
}

impl<'a> Filling<'a> {
    /// By these values.
    pub fn of(alloc: Global, values: &'a [Value]) -> Filling<'a> {
        Filling { alloc, values }
    }

    fn value_of(self, slot: Slot) -> Result<Value, NoMemory> {
        match slot {
            Slot::Given(value) => Ok(value),
            Slot::Hole(hole) => match self.values.get(hole) {
                Some(Value::Int(number)) => Ok(Value::Int(*number)),
                Some(Value::Text(text)) => {
                    Ok(Value::Text(Text::from_str(self.alloc, text.as_str())?))
                }
                Some(Value::Null) | None => Ok(Value::Null),
            },
        }
    }

    fn row(self, slots: Sequence<Slot>) -> Result<Sequence<Value>, NoMemory> {
        let mut row = Vec::new(self.alloc);
        for slot in slots.into_vec() {
            row.push(self.value_of(slot)?)?;
        }
        Ok(Sequence::from_vec(row))
    }

    fn settings(self, settings: Sequence<SlotSetting>) -> Result<Sequence<Setting>, NoMemory> {
        let mut filled = Vec::new(self.alloc);
        for SlotSetting { column, slot } in settings.into_vec() {
            let value = self.value_of(slot)?;
            filled.push(Setting { column, value })?;
        }
        Ok(Sequence::from_vec(filled))
    }

    fn conditions(self, conditions: Sequence<SlotCond>) -> Result<Sequence<Cond>, NoMemory> {
        let mut filled = Vec::new(self.alloc);
        for SlotCond { column, op, slot } in conditions.into_vec() {
            let value = self.value_of(slot)?;
            filled.push(Cond { column, op, value })?;
        }
        Ok(Sequence::from_vec(filled))
    }

    fn insert(self, table: Text, slots: Sequence<Slot>) -> Result<Command, NoMemory> {
        let values = self.row(slots)?;
        Ok(Command::Insert { table, values })
    }

    fn update(
        self,
        table: Text,
        settings: Sequence<SlotSetting>,
        conditions: Sequence<SlotCond>,
    ) -> Result<Command, NoMemory> {
        let settings = self.settings(settings)?;
        let conditions = self.conditions(conditions)?;
        Ok(Command::Update {
            table,
            settings,
            conditions,
        })
    }

    fn delete(self, table: Text, conditions: Sequence<SlotCond>) -> Result<Command, NoMemory> {
        let conditions = self.conditions(conditions)?;
        Ok(Command::Delete { table, conditions })
    }

    fn select(
        self,
        distinct: bool,
        items: Items,
        table: Text,
        joins: Sequence<Join>,
        conditions: Sequence<SlotCond>,
    ) -> Result<Command, NoMemory> {
        let conditions = self.conditions(conditions)?;
        Ok(Command::Select {
            distinct,
            items,
            table,
            joins,
            conditions,
        })
    }

    /// The command that a statement is with these values.
    pub fn command(self, statement: Statement) -> Result<Command, NoMemory> {
        match statement {
            Statement::Insert { table, slots } => self.insert(table, slots),
            Statement::Update {
                table,
                settings,
                conditions,
            } => self.update(table, settings, conditions),
            Statement::Delete { table, conditions } => self.delete(table, conditions),
            Statement::Select {
                distinct,
                items,
                table,
                joins,
                conditions,
            } => self.select(distinct, items, table, joins, conditions),
        }
    }
}
