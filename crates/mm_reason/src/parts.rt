//! What stands in a command, as its reasons talk of it.

use no_memory::NoMemory;
use plain_tables::{ColName, Column, Command, Cond, IndexKind, Items, Join, Setting, Text, Value};
use std::alloc::Global;

/// The name of a column, and that of its table where one is written before it.
#[derive(Clone, Copy)]
pub struct Name<'a> {
    pub table: Option<&'a Text>,
    pub column: &'a Text,
}

/// The column that an index is on, and its kind.
#[derive(Clone, Copy)]
pub struct IndexPart<'a> {
    pub column: &'a Text,
    pub kind: IndexKind,
}

/// The parts of a command. Settings stand before conditions among the names and the values.
#[derive(Drop)]
pub struct Parts<'a> {
    /// The table that it is on, or that it declares.
    pub table: &'a Text,
    /// The columns that it declares.
    pub columns: &'a [Column],
    pub index: Option<IndexPart<'a>>,
    pub items: &'a [ColName],
    pub joins: &'a [Join],
    /// The columns that values are for, where they are named.
    pub names: Vec<Name<'a>>,
    pub values: Vec<&'a Value>,
    /// How many conditions there are.
    pub conditions: usize,
}

// The columns that are named to be shown.
fn named_items(items: &Items) -> &[ColName] {
    match items {
        Items::All => &[],
        Items::Named(names) => names.as_slice(),
    }
}

impl<'a> Name<'a> {
    /// The name in a condition or an item.
    pub fn of(name: &'a ColName) -> Name<'a> {
        Name {
            table: name.table.as_ref(),
            column: &name.column,
        }
    }

    /// A name with no table's before it.
    pub fn bare(column: &'a Text) -> Name<'a> {
        Name {
            table: None,
            column,
        }
    }
}

impl<'a> Parts<'a> {
    // A command that has no other part than a table.
    fn on(alloc: Global, table: &'a Text) -> Parts<'a> {
        Parts {
            table,
            columns: &[],
            index: None,
            items: &[],
            joins: &[],
            names: Vec::new(alloc),
            values: Vec::new(alloc),
            conditions: 0,
        }
    }

    fn with_index(mut self, column: &'a Text, kind: IndexKind) -> Parts<'a> {
        self.index = Some(IndexPart { column, kind });
        self
    }

    fn with_row(mut self, values: &'a [Value]) -> Result<Parts<'a>, NoMemory> {
        for value in values {
            self.values.push(value)?;
        }
        Ok(self)
    }

    fn with_settings(mut self, settings: &'a [Setting]) -> Result<Parts<'a>, NoMemory> {
        for setting in settings {
            self.names.push(Name::bare(&setting.column))?;
            self.values.push(&setting.value)?;
        }
        Ok(self)
    }

    fn with_conditions(mut self, conditions: &'a [Cond]) -> Result<Parts<'a>, NoMemory> {
        for condition in conditions {
            self.names.push(Name::of(&condition.column))?;
            self.values.push(&condition.value)?;
        }
        self.conditions = conditions.len();
        Ok(self)
    }

    /// The parts of a command. Only the command that lists tables has none.
    pub fn of(alloc: Global, command: &'a Command) -> Result<Option<Parts<'a>>, NoMemory> {
        let parts = match command {
            Command::Tables => return Ok(None),
            Command::Table { name, schema } => {
                let mut parts = Parts::on(alloc, name);
                parts.columns = schema.columns.as_slice();
                parts
            }
            Command::DropTable { table } => Parts::on(alloc, table),
            Command::Load { table, .. } => Parts::on(alloc, table),
            Command::Dump { table } => Parts::on(alloc, table),
            Command::Index {
                table,
                column,
                kind,
            } => Parts::on(alloc, table).with_index(column, *kind),
            Command::DropIndex {
                table,
                column,
                kind,
            } => Parts::on(alloc, table).with_index(column, *kind),
            Command::Insert { table, values } => {
                Parts::on(alloc, table).with_row(values.as_slice())?
            }
            Command::Update {
                table,
                settings,
                conditions,
            } => Parts::on(alloc, table)
                .with_settings(settings.as_slice())?
                .with_conditions(conditions.as_slice())?,
            Command::Delete { table, conditions } => {
                Parts::on(alloc, table).with_conditions(conditions.as_slice())?
            }
            Command::Select {
                items,
                table,
                joins,
                conditions,
                ..
            } => {
                let mut parts = Parts::on(alloc, table).with_conditions(conditions.as_slice())?;
                parts.items = named_items(items);
                parts.joins = joins.as_slice();
                parts
            }
        };
        Ok(Some(parts))
    }
}
