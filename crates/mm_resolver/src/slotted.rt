//! What stands in the place of values. Commands and statements are resolved by one code, to which a value is a slot that is given.
ghost use Rattle.std.specs.Prelude.{◌≡◌, ◌∷◌, [], OnOk, refl};
ghost use Rattle.plain_statements.specs.StatementSpelling.{given_condition, given_setting};
ghost use Rattle.plain_statements.specs.declared.resolution.SlotAssignment.{SlotAssignment as PlainSlotAssignment};
ghost use Rattle.plain_statements.specs.declared.resolution.SlotJoined.{SlotJoined as PlainSlotJoined};
ghost use Rattle.plain_statements.specs.declared.resolution.SlotSource.{SlotSource as PlainSlotSource};
ghost use Rattle.plain_statements.specs.declared.resolution.SlotTest.{SlotTest as PlainSlotTest};
ghost use Rattle.plain_statements.specs.declared.statement.Slot.{Slot as PlainSlot};
ghost use Rattle.plain_statements.specs.declared.statement.Slot.TheVariants as slots;
ghost use Rattle.plain_statements.specs.declared.statement.SlotCond.{SlotCond as PlainSlotCond};
ghost use Rattle.plain_statements.specs.declared.statement.SlotSetting.{SlotSetting as PlainSlotSetting};
ghost use Rattle.mm_resolver.specs.Slots.{given_assignment, given_joined, given_source, given_test, slot_assignment_at, slot_test_at, with_slot_test};
ghost use Rattle.mm_resolver.specs.Wanted.{Adds};

use crate::repeats::HasName;
use crate::schemas::Schemas;
use crate::wanted::Wanted;
use no_memory::NoMemory;
use plain_statements::{
    Need, Slot, SlotAssignment, SlotCond, SlotJoined, SlotSetting, SlotSource, SlotTest,
};
use plain_tables::{
    Assignment, ColName, ColumnNumber, Cond, Joined, Op, Place, Sequence, Setting, Source,
    TableNumber, Test, Value,
};
use std::alloc::Global;

/// A value, or what stands in the place of one.
pub trait AsSlot: Drop {
    // the slot that it is
    ghost as_slot: { Self → PlainSlot };

    /// Adds what the value has to be, which is for that column.
    fn want<S: Schemas>(
        &self,
        schemas: &S,
        column: Place,
        need: Need,
        wanted: &mut Wanted,
    ) -> Result<(), NoMemory>
        ensures { OnOk result (Adds ((as_slot self.now, need) ∷ []) wanted.old wanted.new) };
}

/// A condition, on a value or on what stands in the place of one.
pub trait AsCondition: Drop {
    /// What it is by the number of its column.
    type Test: Drop;

    /// The rows of a table that pass such tests.
    type Source: Drop;

    /// A source that is joined with those before it.
    type Joined: Drop;

    // the condition on a slot that it is, and the test of one that a test is
    ghost as_condition: { Self → PlainSlotCond };

    ghost as_test: { Self.Test → PlainSlotTest };

    // the source and the join with tests of slots that those are
    ghost as_source: { Self.Source → PlainSlotSource };

    ghost as_joined: { Self.Joined → PlainSlotJoined };

    /// The column that it names.
    fn column(&self) -> &ColName
        ensures { result.now ≡ (as_condition self.now).column };

    /// How the values of the column have to stand to its own.
    fn op(&self) -> Op
        ensures { result ≡ (as_condition self.now).op };

    /// Adds what its value has to be, which is for that column.
    fn want<S: Schemas>(
        &self,
        schemas: &S,
        column: Place,
        need: Need,
        wanted: &mut Wanted,
    ) -> Result<(), NoMemory>
        ensures { OnOk result (Adds (((as_condition self.now).slot, need) ∷ []) wanted.old wanted.new) };

    /// The test that it is of the column at a place.
    fn at(self, place: Place) -> Self::Test
        ensures { as_test result ≡ slot_test_at (as_condition self) place };

    /// The source of a table that passes each of its rows. It takes no memory.
    fn untested(alloc: Global, table: TableNumber) -> Self::Source
        ensures { as_source result ≡ record { table = table; tests = [] } };

    /// Puts a test behind the others of a source.
    fn add_test(source: &mut Self::Source, test: Self::Test) -> Result<(), NoMemory>
        ensures { OnOk result (as_source source.new ≡ with_slot_test (as_source source.old) (as_test test)) };

    /// The source, joined by two columns.
    fn join(source: Self::Source, outer: Place, inner: ColumnNumber) -> Self::Joined
        ensures { as_joined result ≡ record { source = as_source source; outer = outer; inner = inner } };
}

/// A setting of a column, to a value or to what stands in the place of one.
pub trait AsSetting: HasName + Drop {
    /// What it is by the number of its column.
    type Assignment: Drop;

    // the setting to a slot that it is, and the assignment of one that an assignment is
    ghost as_setting: { Self → PlainSlotSetting };

    ghost as_assignment: { Self.Assignment → PlainSlotAssignment };

    /// Adds what its value has to be, which is for that column.
    fn want<S: Schemas>(
        &self,
        schemas: &S,
        column: Place,
        need: Need,
        wanted: &mut Wanted,
    ) -> Result<(), NoMemory>
        ensures { OnOk result (Adds (((as_setting self.now).slot, need) ∷ []) wanted.old wanted.new) };

    /// The assignment that it is to the column at a place.
    fn at(self, place: Place) -> Self::Assignment
        ensures { as_assignment result ≡ slot_assignment_at (as_setting self) place };

    /// The column of an assignment.
    fn column_of(assignment: &Self::Assignment) -> ColumnNumber
        ensures { result ≡ (as_assignment assignment.now).column };

    ghost same_name: { (s : Self) → (as_setting s).column ≡ Self.named s };
}

impl AsSlot for Value {
    ghost as_slot = { slots.Given };

    #[inline]
    fn want<S: Schemas>(
        &self,
        schemas: &S,
        column: Place,
        need: Need,
        wanted: &mut Wanted,
    ) -> Result<(), NoMemory> {
        wanted.judge(schemas, column, self, need);
        Ok(())
    }
}

impl AsSlot for Slot {
    ghost as_slot = { λ s. s };

    #[inline]
    fn want<S: Schemas>(
        &self,
        schemas: &S,
        column: Place,
        need: Need,
        wanted: &mut Wanted,
    ) -> Result<(), NoMemory> {
        match self {
            Slot::Given(value) => value.want(schemas, column, need, wanted),
            Slot::Hole(hole) => wanted.want(*hole, need),
        }
    }
}

impl AsCondition for Cond {
    type Test = Test;

    type Source = Source;

    type Joined = Joined;

    ghost as_condition = { given_condition };

    ghost as_test = { given_test };

    ghost as_source = { given_source };

    ghost as_joined = { given_joined };

    #[inline]
    fn column(&self) -> &ColName {
        &self.column
    }

    #[inline]
    fn op(&self) -> Op {
        self.op
    }

    #[inline]
    fn want<S: Schemas>(
        &self,
        schemas: &S,
        column: Place,
        need: Need,
        wanted: &mut Wanted,
    ) -> Result<(), NoMemory> {
        self.value.want(schemas, column, need, wanted)
    }

    #[inline]
    fn at(self, place: Place) -> Test {
        let Cond { op, value, .. } = self;
        Test {
            column: place.column,
            op,
            value,
        }
    }

    #[inline]
    fn untested(alloc: Global, table: TableNumber) -> Source {
        Source {
            table,
            tests: Sequence::new(alloc),
        }
    }

    #[inline]
    fn add_test(source: &mut Source, test: Test) -> Result<(), NoMemory> {
        source.tests.push(test)
    }

    #[inline]
    fn join(source: Source, outer: Place, inner: ColumnNumber) -> Joined {
        Joined {
            source,
            outer,
            inner,
        }
    }
}

impl AsCondition for SlotCond {
    type Test = SlotTest;

    type Source = SlotSource;

    type Joined = SlotJoined;

    ghost as_condition = { λ c. c };

    ghost as_test = { λ t. t };

    ghost as_source = { λ s. s };

    ghost as_joined = { λ j. j };

    #[inline]
    fn column(&self) -> &ColName {
        &self.column
    }

    #[inline]
    fn op(&self) -> Op {
        self.op
    }

    #[inline]
    fn want<S: Schemas>(
        &self,
        schemas: &S,
        column: Place,
        need: Need,
        wanted: &mut Wanted,
    ) -> Result<(), NoMemory> {
        self.slot.want(schemas, column, need, wanted)
    }

    #[inline]
    fn at(self, place: Place) -> SlotTest {
        let SlotCond { op, slot, .. } = self;
        SlotTest {
            column: place.column,
            op,
            slot,
        }
    }

    #[inline]
    fn untested(alloc: Global, table: TableNumber) -> SlotSource {
        SlotSource {
            table,
            tests: Sequence::new(alloc),
        }
    }

    #[inline]
    fn add_test(source: &mut SlotSource, test: SlotTest) -> Result<(), NoMemory> {
        source.tests.push(test)
    }

    #[inline]
    fn join(source: SlotSource, outer: Place, inner: ColumnNumber) -> SlotJoined {
        SlotJoined {
            source,
            outer,
            inner,
        }
    }
}

impl AsSetting for Setting {
    type Assignment = Assignment;

    ghost as_setting = { given_setting };

    ghost as_assignment = { given_assignment };

    ghost same_name = { λ s. refl };

    #[inline]
    fn want<S: Schemas>(
        &self,
        schemas: &S,
        column: Place,
        need: Need,
        wanted: &mut Wanted,
    ) -> Result<(), NoMemory> {
        self.value.want(schemas, column, need, wanted)
    }

    #[inline]
    fn at(self, place: Place) -> Assignment {
        Assignment {
            column: place.column,
            value: self.value,
        }
    }

    #[inline]
    fn column_of(assignment: &Assignment) -> ColumnNumber {
        assignment.column
    }
}

impl AsSetting for SlotSetting {
    type Assignment = SlotAssignment;

    ghost as_setting = { λ s. s };

    ghost as_assignment = { λ a. a };

    ghost same_name = { λ s. refl };

    #[inline]
    fn want<S: Schemas>(
        &self,
        schemas: &S,
        column: Place,
        need: Need,
        wanted: &mut Wanted,
    ) -> Result<(), NoMemory> {
        self.slot.want(schemas, column, need, wanted)
    }

    #[inline]
    fn at(self, place: Place) -> SlotAssignment {
        SlotAssignment {
            column: place.column,
            slot: self.slot,
        }
    }

    #[inline]
    fn column_of(assignment: &SlotAssignment) -> ColumnNumber {
        assignment.column
    }
}
