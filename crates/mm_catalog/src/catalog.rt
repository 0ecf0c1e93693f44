//! The tables, and what they are called.
ghost use Rattle.std.specs.Prelude.{◌≡◌, ◌≢◌, ◌<◌, ◌≤◌, ◌⊎◌, Bool, true, false, [], ◌∷◌, All, Some, IfSome, IfNone, IfErr, IfOk, OnOk, OnErr, drop, length, map, position, slice_get, take};
ghost use Rattle.std.specs.List.{AllPairs};
ghost use Rattle.std.specs.Option.{option_map};

use crate::by_key::rising_places;
use crate::create::{aimed, any_refers_to, count_targets};
use crate::declare::{declare, undeclare};
use crate::delete::{delete, take_out};
use crate::guesses::Guesses;
use crate::insert::insert;
use crate::laws::a_catalog_is_consistent;
use crate::load::{LoadedRows, MovedRows, PlacedRows, in_record, make_room};
use crate::references::link::Link;
use crate::removal::unlink;
use crate::renumbering::{Renumbering, renumber_from};
use crate::row_values::{LentValues, RowValues};
use crate::updating::{set_rows, shed_links};
use indexmap::IndexSet;
use mm_relation::{
    DeclaredIndex, LEAST_IN_ORDER, Relation, Relations, SlotSet, StoredCell, TreeShape,
};
use no_memory::NoMemory;
use part_raw::TupleRef;
use plain_tables::{
    Assignment, Column, ColumnNumber, IndexKind, Limits, Refusal, RowList, Schema, TableNumber,
    Text, Value,
};
use std::alloc::Global;
use std::marker::Model;

/// Tables by name, in the order of their declaration, each a relation.
pub struct Catalog {
    pub(crate) limits: Limits,
    pub(crate) names: IndexSet<String>,
    pub(crate) relations: Vec<Relation>,
    // Where the cells of a row are packed on their way into a table. It keeps its memory from row to row.
    pub(crate) cells: Vec<StoredCell>,
    // Where an update lists the cells that it sets and the links that go. They keep their memory too.
    pub(crate) sets: Vec<(ColumnNumber, StoredCell)>,
    pub(crate) lost: Vec<Link>,
    // The number of the newest change.
    pub(crate) clock: u64,
}

impl Drop for Catalog {
    fn drop(self) {
        let Catalog {
            limits: _,
            names: _,
            relations: _,
            cells: _,
            sets: _,
            lost: _,
            clock: _,
        } = self;
    }
}

impl Model for Catalog {
    ghost use Rattle.std.specs.Prelude.{map};
    ghost use Rattle.std.specs.String.{string_bytes};
    ghost use Rattle.mm_catalog.specs.State.{CatalogState, catalog_code};
    ghost use Rattle.mm_catalog.specs.Consistent.{IsConsistent};
    ghost use Rattle.plain_tables.specs.contracts.command.Limits.{the_row as limits_row};
    ghost use Rattle.mm_relation.specs.contracts.relation.Relation.{the_row as relation_row};

    ghost Value = { CatalogState };

    ghost coded = { catalog_code limits_row.coded relation_row.coded };

    ghost view = { λ c. record { limits = c.limits; names = map string_bytes c.names.keys; relations = c.relations.items } };

    ghost invariant = { λ c. IsConsistent (record { limits = c.limits; names = map string_bytes c.names.keys; relations = c.relations.items }) };
}

impl Catalog {
    ghost use Rattle.plain_tables.specs.declared.resolved.Resolved.TheVariants as resolved;
    ghost use Rattle.plain_tables.specs.ResolvedLaws.{AreAssignable, IsMeant, OfTable};
    ghost use Rattle.mm_catalog.specs.Seen.{database_of, plain_index};
    ghost use Rattle.plain_tables.specs.References as plain;
    ghost use Rattle.plain_tables.specs.Doing as doing;
    ghost use Rattle.plain_tables.specs.Doing.{done};
    ghost use Rattle.plain_tables.specs.Effects.{Refused};
    ghost use Rattle.plain_tables.specs.Tables.{Row};
    ghost use Rattle.mm_catalog.specs.Changes.{IsDone, HasEffect, IsRefusedFor, IsDeclinedFor, KeepsDatabase};
    ghost use Rattle.mm_catalog.specs.Declarations.{HasIndexMore, HasTableMore, without_declared};
    ghost use Rattle.mm_catalog.specs.Loaded.{HasCome, HaveGone, AreFreeRows};
    ghost use Rattle.mm_catalog.specs.Outline.{HasRowsMore, HaveCome, outline_of, without_rows};
    ghost use Rattle.mm_catalog.specs.Picked.{ArePicked, HoldsRows};
    ghost use Rattle.plain_tables.specs.Databases.{is_named};
    ghost use Rattle.mm_resolver.specs.Naming.{table_number};
    ghost use Rattle.mm_catalog.specs.Trees.{TellsTree};
    ghost use Rattle.mm_relation.specs.Changes.{HasTree};
    ghost use Rattle.mm_relation.specs.Declaring.{declaration};
    ghost use Rattle.mm_relation.specs.State.{RelationState};

    /// A catalog of no tables, under these limits. It takes no memory.
    pub fn new(alloc: Global, limits: Limits) -> Catalog
        requires { limits.rows ≤ 16777216 }
        ensures empty { database_of result ≡ [] }
        ensures limits { result.limits ≡ limits }
    {
        Catalog {
            limits,
            names: IndexSet::new(alloc),
            relations: Vec::new(alloc),
            cells: Vec::new(alloc),
            sets: Vec::new(alloc),
            lost: Vec::new(alloc),
            clock: 0,
        }
    }

    /// The limits that it was made under.
    pub fn limits(&self) -> Limits
        ensures { result ≡ self.now.limits }
    {
        self.limits
    }

    /// How many tables there are.
    pub fn table_count(&self) -> usize
        ensures { result ≡ length (database_of self.now) }
    {
        self.relations.len()
    }

    /// The name of a table.
    pub fn table_name(&self, table: TableNumber) -> &str
        requires { table.0 < length (database_of self.now) }
        ensures { option_map (λ t. t.name) (slice_get (database_of self.now) table.0) ≡ Some result.now }
    {
        self.names.as_slice()[table.0].as_str()
    }

    /// The columns of a table.
    pub fn columns(&self, table: TableNumber) -> &[Column]
        requires { table.0 < length (database_of self.now) }
        ensures { option_map (λ t. t.columns) (slice_get (database_of self.now) table.0) ≡ Some result.now }
    {
        self.relations[table.0].schema().columns.as_slice()
    }

    /// The declared indexes of a table.
    pub(crate) fn declared(&self, table: TableNumber) -> &[DeclaredIndex]
        requires { table.0 < length (database_of self.now) }
        ensures { option_map (λ t. t.indexes) (slice_get (database_of self.now) table.0) ≡ Some (map plain_index result.now) }
    {
        self.relations[table.0].declared()
    }

    /// Whether a column of some table refers to the table of that name.
    pub(crate) fn is_table_referenced(&self, name: &str) -> bool
        ensures { result ≡ plain.is_table_referenced (database_of self.now) name.now }
    {
        any_refers_to(self.relations.as_slice(), name)
    }

    /// The number of the table of that name.
    pub fn table_number(&self, name: &Text) -> Option<TableNumber>
        ensures { result ≡ option_map table_number (position (is_named name.now) (database_of self.now)) }
    {
        let number = self.names.get_index_of(name.as_str())?;
        Some(TableNumber(number))
    }

    /// How the tree on a column of a table stands, where there is one: that of its key, or the first declared one. Its height,
    /// its nodes and its references, one for each row of the table. No node has more than 32 of them, each with two children
    /// at least 30, and each with one child at least 31 together with it.
    pub fn tree_shape(&self, table: TableNumber, column: ColumnNumber) -> Option<TreeShape>
        requires { table.0 < length (database_of self.now) }
        ensures told { IfSome result (TellsTree self.now table.0 column.0) }
        ensures none { IfNone result ((s : RelationState) → slice_get self.now.relations table.0 ≡ Some s → ¬ (HasTree s column.0)) }
    {
        let relation = &self.relations[table.0];
        if !relation.has_tree(column) {
            return None;
        }
        Some(relation.tree_shape(column))
    }

    /// Declares a table, which stands last. Its links lead into the tables that its columns refer to, which count them from
    /// then on.
    pub fn create(&mut self, name: Text, schema: Schema) -> Result<(), NoMemory>
        requires { IsMeant self.old.limits (database_of self.old) (resolved.Table name schema) }
        ensures done { OnOk result (IsDone self.old self.new (resolved.Table name schema)) }
        ensures unchanged { OnErr result (self.new ≡ self.old) }
    {
        self.create_noted(name, schema)?;
        Ok(())
    }

    /// Declares a table as `create` does, and gives the numbers of the tables that counted no links before.
    pub fn create_noted(&mut self, name: Text, schema: Schema) -> Result<Vec<TableNumber>, NoMemory>
        requires { IsMeant self.old.limits (database_of self.old) (resolved.Table name schema) }
        ensures done { OnOk result (IsDone self.old self.new (resolved.Table name schema)) }
        ensures made { IfOk result (λ gained. HasTableMore (outline_of self.old) (outline_of self.new) (map (λ n. n.0) gained.items)) }
        ensures unchanged { OnErr result (self.new ≡ self.old) }
    {
        self.relations.reserve(1)?;
        let alloc = *self.relations.allocator();
        let relation = aimed(alloc, schema, &self.names)?;
        let name = String::from_str(alloc, name.as_str())?;
        self.names.reserve(1)?;
        let mut gained = Vec::new(alloc);
        let relations = self.relations.as_mut_slice();
        count_targets(relations, &relation, ColumnNumber(0), &mut gained)?;
        let Ok(_) = self.names.insert(name) else {
            unreachable!();
        };
        self.relations.push_reserved(relation);
        Ok(gained)
    }

    /// Declares an index of a table over the rows that are there.
    pub fn add_index(
        &mut self,
        table: TableNumber,
        column: ColumnNumber,
        kind: IndexKind,
    ) -> Result<(), NoMemory>
        requires { IsMeant self.old.limits (database_of self.old) (resolved.Index table column kind) }
        ensures done { OnOk result (IsDone self.old self.new (resolved.Index table column kind)) }
        ensures indexed { OnOk result (HasIndexMore (outline_of self.old) (outline_of self.new) table.0 (declaration column kind)) }
        ensures unchanged { OnErr result (self.new ≡ self.old) }
    {
        declare(self.relations.as_mut_slice(), table, column, kind)
    }

    /// Drops an index of a table. It takes no memory.
    #[inline(never)]
    pub fn drop_index(&mut self, table: TableNumber, column: ColumnNumber, kind: IndexKind)
        requires { IsMeant self.old.limits (database_of self.old) (resolved.DropIndex table column kind) }
        ensures done { IsDone self.old self.new (resolved.DropIndex table column kind) }
        ensures outline { outline_of self.new ≡ without_declared table.0 (declaration column kind) (outline_of self.old) }
    {
        undeclare(self.relations.as_mut_slice(), table, column, kind)
    }

    /// Takes rows out of a table. Where a row of some table refers to one of them, it takes out none. It takes no memory.
    pub fn delete(&mut self, table: TableNumber, rows: &[TupleRef]) -> Result<(), Refusal>
        requires there { table.0 < length (database_of self.old) }
        requires held { HoldsRows self.old table.0 rows.now }
        requires once { AllPairs (λ q r. q ≢ r) rows.now }
        ensures deleted { OnOk result ((picks : Row → Bool) → ArePicked self.old table.0 rows.now picks → HasEffect self.old self.new (doing.delete (database_of self.old) table picks) (length rows.now)) }
        ensures refused { IfErr result (λ refusal. (picks : Row → Bool) → ArePicked self.old table.0 rows.now picks → (doing.delete (database_of self.old) table picks).outcome ≡ Refused refusal) }
        ensures unchanged { OnErr result (self.new ≡ self.old) }
    {
        delete(self.relations.as_mut_slice(), table, rows)
    }

    /// Drops a table, which no column refers to. Those behind it move up. It takes no memory.
    pub fn drop_table(&mut self, table: TableNumber)
        requires { IsMeant self.old.limits (database_of self.old) (resolved.DropTable table) }
        ensures { IsDone self.old self.new (resolved.DropTable table) }
    {
        unlink(self.relations.as_mut_slice(), table);
        self.relations.remove(table.0);
        self.names.shift_remove_index(table.0);
        renumber_from(
            self.relations.as_mut_slice(),
            table,
            Renumbering::Gone(table),
        );
    }

    /// Puts a row into a table. The answer is 41 where a row with its key is there, else 42 where a reference of it names
    /// no row, else 43 where the table is full, and 90 where no memory is found. All is then as before.
    pub fn insert(&mut self, table: TableNumber, values: &[Value]) -> Result<(), Refusal>
        requires { IsMeant self.old.limits (database_of self.old) (resolved.Insert table values.now) }
        ensures inserted { OnOk result (HasEffect self.old self.new (done self.old.limits (database_of self.old) (resolved.Insert table values.now)) 1) }
        ensures refused { IfErr result (IsRefusedFor self.old self.new (done self.old.limits (database_of self.old) (resolved.Insert table values.now))) }
    {
        self.insert_row(table, values)?;
        Ok(())
    }

    /// Puts a row into a table as `insert` does, and gives its reference.
    pub fn insert_row(&mut self, table: TableNumber, values: &[Value]) -> Result<TupleRef, Refusal>
        requires { IsMeant self.old.limits (database_of self.old) (resolved.Insert table values.now) }
        ensures inserted { OnOk result (HasEffect self.old self.new (done self.old.limits (database_of self.old) (resolved.Insert table values.now)) 1) }
        ensures came { IfOk result (λ r. HasRowsMore (outline_of self.old) (outline_of self.new) table.0 (r ∷ [])) }
        ensures refused { IfErr result (IsRefusedFor self.old self.new (done self.old.limits (database_of self.old) (resolved.Insert table values.now))) }
    {
        self.put(table, LentValues { values })
    }

    // Puts a row into a table, and gives its reference.
    pub(crate) fn put<V: RowValues>(
        &mut self,
        table: TableNumber,
        values: V,
    ) -> Result<TupleRef, Refusal>
        requires { IsMeant self.old.limits (database_of self.old) (resolved.Insert table (V.left values)) }
        ensures inserted { OnOk result (HasEffect self.old self.new (done self.old.limits (database_of self.old) (resolved.Insert table (V.left values))) 1) }
        ensures came { IfOk result (HasCome self.old self.new table.0 (V.left values)) }
        ensures refused { IfErr result (IsRefusedFor self.old self.new (done self.old.limits (database_of self.old) (resolved.Insert table (V.left values)))) }
    {
        let alloc = *self.relations.allocator();
        insert(
            alloc,
            self.relations.as_mut_slice(),
            self.limits,
            table,
            values,
            &mut self.cells,
        )
    }

    /// Takes rows out of a table that no link names. It takes no memory, and never fails.
    pub fn take_back(&mut self, table: TableNumber, rows: &[TupleRef])
        requires there { table.0 < length (database_of self.old) }
        requires held { HoldsRows self.old table.0 rows.now }
        requires once { AllPairs (λ q r. q ≢ r) rows.now }
        requires free { AreFreeRows self.old table.0 rows.now }
        ensures gone { HaveGone self.old self.new table.0 rows.now }
        ensures outline { outline_of self.new ≡ without_rows table.0 rows.now (outline_of self.old) }
    {
        take_out(self.relations.as_mut_slice(), table, rows)
    }

    /// Takes rows out of a table as `take_back` does, many of them in the order of their keys, into which their references are put
    /// by way of the set. It takes no memory, and never fails.
    pub fn take_many_back(&mut self, table: TableNumber, rows: &mut [TupleRef], set: &mut SlotSet)
        requires there { table.0 < length (database_of self.old) }
        requires held { HoldsRows self.old table.0 rows.old }
        requires once { AllPairs (λ q r. q ≢ r) rows.old }
        requires free { AreFreeRows self.old table.0 rows.old }
        ensures gone { HaveGone self.old self.new table.0 rows.old }
        ensures outline { outline_of self.new ≡ without_rows table.0 rows.old (outline_of self.old) }
    {
        a_catalog_is_consistent(self);
        self.at(table).put_in_removal_order(rows, set);
        self.take_back(table, rows)
    }

    // Takes the rows of a load out of a table again, whose references stand in a list from a place on, and takes these off the list.
    // Where they are many and memory is found for a set of their slots, they go in the order of their keys.
    fn unload(&mut self, table: TableNumber, came: &mut Vec<TupleRef>, start: usize)
        requires within { start ≤ length came.old.items }
        requires there { table.0 < length (database_of self.old) }
        requires held { HoldsRows self.old table.0 (drop start came.old.items) }
        requires once { AllPairs (λ q r. q ≢ r) (drop start came.old.items) }
        requires free { AreFreeRows self.old table.0 (drop start came.old.items) }
        ensures gone { HaveGone self.old self.new table.0 (drop start came.old.items) }
        ensures outline { outline_of self.new ≡ without_rows table.0 (drop start came.old.items) (outline_of self.old) }
        ensures left { came.new.items ≡ take start came.old.items }
    {
        a_catalog_is_consistent(self);
        let mut slots = SlotSet::new(self.allocator());
        if came.len() - start >= LEAST_IN_ORDER {
            let _ = slots.cover(self.at(table).slots());
        }
        self.take_many_back(table, &mut came[start..], &mut slots);
        came.truncate(start);
    }

    /// Puts rows into a table, all of them or none, as inserts one after the other do. Where one of them cannot come in, the
    /// answer is that of its insert, with its number among the rows, counted from 1; and 90 where no memory is found.
    pub fn load_rows(&mut self, table: TableNumber, rows: RowList) -> Result<(), Refusal>
        requires { IsMeant self.old.limits (database_of self.old) (resolved.Load table rows) }
        ensures loaded { OnOk result (HasEffect self.old self.new (done self.old.limits (database_of self.old) (resolved.Load table rows)) (length rows)) }
        ensures refused { IfErr result (IsDeclinedFor self.old self.new (done self.old.limits (database_of self.old) (resolved.Load table rows))) }
    {
        let mut came = Vec::new(self.allocator());
        self.load_listed(table, rows, &mut came)
    }

    /// Puts rows into a table as `load_rows` does, and puts their references behind those of a list. After a refusal the list and
    /// the rows are as before, each under its reference.
    pub fn load_listed(
        &mut self,
        table: TableNumber,
        rows: RowList,
        came: &mut Vec<TupleRef>,
    ) -> Result<(), Refusal>
        requires { IsMeant self.old.limits (database_of self.old) (resolved.Load table rows) }
        ensures loaded { OnOk result (HasEffect self.old self.new (done self.old.limits (database_of self.old) (resolved.Load table rows)) (length rows)) }
        ensures came { OnOk result (HaveCome self.old self.new table.0 came.old.items came.new.items) }
        ensures refused { IfErr result (IsDeclinedFor self.old self.new (done self.old.limits (database_of self.old) (resolved.Load table rows))) }
        ensures outline { OnErr result (outline_of self.new ≡ outline_of self.old) }
        ensures list { OnErr result (came.new.items ≡ came.old.items) }
    {
        a_catalog_is_consistent(self);
        self.reserve_rows(table, rows.len())?;
        if self.load_by_key(table, &rows, came) {
            return Ok(());
        }
        let loaded = self.load(table, MovedRows::new(rows), came);
        if loaded.is_err() {
            self.shed_spares(table);
        }
        loaded
    }

    // Puts rows into a table in the order of their keys, where that serves and all of them come in, and lists their references.
    // Else it leaves the tables and the list as they were.
    fn load_by_key(&mut self, table: TableNumber, rows: &RowList, came: &mut Vec<TupleRef>) -> bool
        requires { IsMeant self.old.limits (database_of self.old) (resolved.Load table rows.now) }
        ensures loaded { result ≡ true → HasEffect self.old self.new (done self.old.limits (database_of self.old) (resolved.Load table rows.now)) (length rows.now) }
        ensures came { result ≡ true → HaveCome self.old self.new table.0 came.old.items came.new.items }
        ensures kept { result ≡ false → KeepsDatabase self.old self.new }
        ensures outline { result ≡ false → outline_of self.new ≡ outline_of self.old }
        ensures list { result ≡ false → came.new.items ≡ came.old.items }
    {
        a_catalog_is_consistent(self);
        let held = self.at(table).len();
        match rising_places(self.allocator(), held, rows) {
            Some(places) => {
                let rows = PlacedRows {
                    rows,
                    places: places.as_slice(),
                };
                self.load(table, rows, came).is_ok()
            }
            None => false,
        }
    }

    // Puts rows into a table, one after the other, and lists their references. Where one of them cannot come in, those before it
    // go out again.
    fn load<R: LoadedRows>(
        &mut self,
        table: TableNumber,
        mut rows: R,
        came: &mut Vec<TupleRef>,
    ) -> Result<(), Refusal>
        requires { IsMeant self.old.limits (database_of self.old) (resolved.Load table (R.left rows)) }
        ensures loaded { OnOk result (HasEffect self.old self.new (done self.old.limits (database_of self.old) (resolved.Load table (R.left rows))) (length (R.left rows))) }
        ensures came { OnOk result (HaveCome self.old self.new table.0 came.old.items came.new.items) }
        ensures refused { IfErr result (IsDeclinedFor self.old self.new (done self.old.limits (database_of self.old) (resolved.Load table (R.left rows)))) }
        ensures outline { OnErr result (outline_of self.new ≡ outline_of self.old) }
        ensures list { OnErr result (came.new.items ≡ came.old.items) }
    {
        a_catalog_is_consistent(self);
        let count = rows.len();
        let start = came.len();
        make_room(came, count)?;
        let mut guesses = Guesses::new(self.allocator());
        for _ in 0..count {
            guesses.look_ahead(self.relations.as_slice(), table, &rows);
            match rows.put_next(self, table, &guesses) {
                Ok(r) => came.push_reserved(r),
                Err(refusal) => {
                    let number = (came.len() - start) as u64 + 1;
                    self.unload(table, came, start);
                    return Err(in_record(refusal, number));
                }
            }
        }
        Ok(())
    }

    pub(crate) fn allocator(&self) -> Global {
        *self.relations.allocator()
    }

    /// Assigns values to rows of a table. Where a reference that is assigned names no row, whether a row is given or not, and
    /// where no memory is found, nothing changes.
    pub fn update(
        &mut self,
        table: TableNumber,
        rows: &[TupleRef],
        assignments: &[Assignment],
    ) -> Result<(), Refusal>
        requires meant { OfTable table (database_of self.old) (AreAssignable (database_of self.old) assignments.now) }
        requires held { HoldsRows self.old table.0 rows.now }
        requires once { AllPairs (λ q r. q ≢ r) rows.now }
        ensures updated { OnOk result ((picks : Row → Bool) → ArePicked self.old table.0 rows.now picks → HasEffect self.old self.new (doing.update (database_of self.old) table assignments.now picks) (length rows.now)) }
        ensures refused { IfErr result (λ refusal. (refusal ≡ Refusal.NoMemory) ⊎ ((picks : Row → Bool) → (doing.update (database_of self.old) table assignments.now picks).outcome ≡ Refused refusal)) }
        ensures unchanged { OnErr result (self.new ≡ self.old) }
    {
        let alloc = *self.relations.allocator();
        let answer = set_rows(
            alloc,
            self.relations.as_mut_slice(),
            table,
            rows,
            assignments,
            &mut self.sets,
            &mut self.lost,
        );
        shed_links(alloc, &mut self.lost, rows.len());
        answer
    }
}

impl Relations for Catalog {
    ghost tables = { λ c. c.relations };

    fn at(&self, table: TableNumber) -> &Relation {
        &self.relations[table.0]
    }
}
