//! What a select names: tables, and the columns of its joins.
ghost use Rattle.std.specs.Prelude.{◌≡◌, ◌++◌, ◌∷◌, [], Some, is_some, OnOk, IfOk, map, if◌then◌else◌};
ghost use Rattle.std.specs.List.{list_any};
ghost use Rattle.std.specs.Option.{option_map, option_to_list, option_zip};
ghost use Rattle.std.specs.Str.{bytes_eq};
ghost use Rattle.plain_tables.specs.Queries.{column_meant, sides_meant, side_name};

use crate::culprit::Culprit;
use crate::named_table::NamedTable;
use crate::names::{Name, NamedColumn, column};
use crate::schemas::Schemas;
use no_memory::NoMemory;
use plain_tables::{Join, JoinSide, Refusal};
use std::alloc::Global;
use std::slice::from_ref;

/// The two columns that a join makes equal: one of the tables before it, and one of its own.
#[derive(Clone, Copy)]
pub struct Sides<'a> {
    pub outer: NamedColumn<'a>,
    pub inner: NamedColumn<'a>,
}

/// The tables that a select names, each once, in the order in which it names them, and the columns of its joins.
#[derive(Drop)]
pub struct Scope<'a> {
    pub tables: Vec<NamedTable<'a>>,
    pub sides: Vec<Sides<'a>>,
}

impl<'a> Scope<'a> {
    ghost use Rattle.mm_resolver.specs.Naming.{columns_of, columns_of_all};
    ghost use Rattle.mm_resolver.specs.Select.{placed_sides, sides_found};

    /// The scope of a select from one table.
    pub fn of(alloc: Global, table: NamedTable<'a>) -> Result<Scope<'a>, NoMemory>
        ensures first { IfOk result (λ scope. scope.tables.items ≡ table.entry ∷ []) }
        ensures alone { IfOk result (λ scope. scope.sides.items ≡ []) }
    {
        let mut tables = Vec::new(alloc);
        tables.push(table)?;
        Ok(Scope {
            tables,
            sides: Vec::new(alloc),
        })
    }

    // The columns of a join, where the one side names a column of these tables, and the other one of its own table.
    fn sides_so(
        &self,
        own: &NamedTable<'a>,
        outer: &JoinSide,
        inner: &JoinSide,
    ) -> Option<Sides<'a>>
        ensures { option_map sides_found result ≡ option_map placed_sides (option_zip (column_meant (columns_of_all self.now.tables.items) (side_name outer.now)) (column_meant (columns_of own.now) (side_name inner.now))) }
    {
        Some(Sides {
            outer: column(&self.tables, Name::of_side(outer))?,
            inner: column(from_ref(own), Name::of_side(inner))?,
        })
    }

    // The columns of a join. Either side may name either.
    fn sides(&self, own: &NamedTable<'a>, join: &Join) -> Option<Sides<'a>>
        ensures { option_map sides_found result ≡ option_map placed_sides (sides_meant (columns_of_all self.now.tables.items) (columns_of own.now) join.now) }
    {
        if let Some(sides) = self.sides_so(own, &join.left, &join.right) {
            return Some(sides);
        }
        self.sides_so(own, &join.right, &join.left)
    }

    // Whether a table of that name is one of them.
    fn has(&self, name: &str) -> bool
        ensures { result ≡ list_any (λ s. bytes_eq s.name.now name.now) self.now.tables.items }
    {
        self.tables
            .iter()
            .any(|table| table.name.as_bytes() == name.as_bytes())
    }

    /// Joins a table, by the join of that number. Whether the join names two columns.
    pub fn join<S: Schemas>(
        &mut self,
        schemas: &S,
        number: usize,
        own: NamedTable<'a>,
        join: &Join,
    ) -> Result<bool, NoMemory>
        ensures tables { OnOk result (self.new.tables.items ≡ (if list_any (λ s. bytes_eq s.name.now own.entry.name.now) self.old.tables.items then self.old.tables.items else self.old.tables.items ++ own.entry ∷ [])) }
        ensures named { IfOk result (λ named. named ≡ is_some (sides_meant (columns_of_all self.old.tables.items) (columns_of own.entry) join.now)) }
        ensures sides { OnOk result (map sides_found self.new.sides.items ≡ map sides_found self.old.sides.items ++ option_to_list (option_map placed_sides (sides_meant (columns_of_all self.old.tables.items) (columns_of own.entry) join.now))) }
    {
        let sides = self.sides(&own, join);
        if self.has(own.name) {
            schemas.blame(Refusal::TableNamedTwice, Culprit::Join(number));
        } else {
            self.tables.push(own)?;
        }
        let Some(sides) = sides else {
            schemas.blame(Refusal::NoSuchColumn, Culprit::Join(number));
            return Ok(false);
        };
        self.sides.push(sides)?;
        Ok(true)
    }
}
