//! The statements of a database, each under its number.
ghost use Rattle.std.specs.Prelude.{◌≡◌, ◌≢◌, ◌≤◌, ℕ, Err, IfErr, IfOk, None, OnErr, OnOk, Some, length, option_copied, replicate, slice_set};
ghost use Rattle.std.specs.Option.{option_map};
ghost use Rattle.plain_tables.specs.declared.value.Value.TheVariants as value;
ghost use Rattle.mm_prepared.specs.Cells.{IsSmall, cell_value};
ghost use Rattle.mm_prepared.specs.Kept.{NamesNow, SameNamed, named, unresolved};
ghost use Rattle.mm_prepared.specs.declared.declined.Declined.TheVariants as declined;
ghost use Rattle.mm_prepared.specs.declared.kept.Prepared.{Prepared as PlainPrepared};

use crate::bound::Bound;
use crate::declined::Declined;
use crate::lent_value::LentValue;
use no_memory::NoMemory;
use plain_statements::Resolution;
use plain_tables::Text;
use slab::Slab;
use std::alloc::Global;

/// A statement that is kept: the line that spells it, the values that are bound to its holes, and what it means of the tables, where
/// that is known.
#[derive(Drop)]
pub struct Prepared {
    pub line: Text,
    pub bound: Bound,
    pub resolution: Option<Resolution>,
}

impl Prepared {
    // A statement with a null for each of its holes. What it means is not known.
    fn unresolved(alloc: Global, line: &str, places: usize) -> Result<Prepared, NoMemory>
        ensures { IfOk result (λ p. p ≡ record { line = line.now; bound = replicate places value.Null; resolution = None }) }
    {
        Ok(Prepared {
            line: Text::from_str(alloc, line)?,
            bound: Bound::new(alloc, places)?,
            resolution: None,
        })
    }

    // Has it mean that of the tables.
    fn resolve(&mut self, resolution: Resolution)
        ensures { self.new ≡ record self.old { resolution = Some resolution } }
    {
        drop(self.resolution.replace(resolution));
    }

    // Forgets what the statement means of the tables.
    fn forget(&mut self)
        ensures { self.new ≡ unresolved self.old }
    {
        drop(self.resolution.take());
    }
}

/// The statements that are kept. A number names one from the call that gives the number to the one that frees it; then it may be
/// given again.
#[derive(Drop)]
pub struct Statements {
    kept: Slab<Prepared>,
}

impl Statements {
    /// No statement is kept.
    pub fn new(alloc: Global) -> Statements
        ensures { (number : ℕ) → named result number ≡ None }
    {
        Statements {
            kept: Slab::new(alloc),
        }
    }

    /// Keeps a statement under a number that names none. Each of its holes has a null until a value is bound.
    pub fn prepare(
        &mut self,
        alloc: Global,
        line: &str,
        places: usize,
        resolution: Resolution,
    ) -> Result<usize, NoMemory>
        ensures fresh { IfOk result (λ number. named self.old number ≡ None) }
        ensures kept { IfOk result (λ number. NamesNow self.old self.new number (Some (record { line = line.now; bound = replicate places value.Null; resolution = Some resolution }))) }
        ensures unchanged { OnErr result (SameNamed self.old self.new) }
    {
        match Prepared::unresolved(alloc, line, places) {
            Ok(mut prepared) => {
                prepared.resolve(resolution);
                Ok(self.kept.insert(prepared)?)
            }
            Err(fault) => {
                drop(resolution);
                Err(fault)
            }
        }
    }

    /// Frees a number: it names no statement.
    pub fn finalize(&mut self, number: usize) -> Result<(), Declined>
        ensures freed { OnOk result (NamesNow self.old self.new number None) }
        ensures missing { named self.old number ≡ None → result ≡ Err declined.NoSuchStatement }
        ensures declined { IfErr result (λ e. e ≡ declined.NoSuchStatement) }
        ensures none { OnErr result (named self.old number ≡ None) }
        ensures unchanged { OnErr result (SameNamed self.old self.new) }
    {
        match self.kept.try_remove(number) {
            Some(prepared) => {
                drop(prepared);
                Ok(())
            }
            None => Err(Declined::NoSuchStatement),
        }
    }

    /// The statement that a number names.
    pub fn get(&self, number: usize) -> Option<&Prepared>
        ensures { option_copied result ≡ named self.now number }
    {
        self.kept.get(number)
    }

    /// Binds a value to the hole of a place in the statement that a number names. A text is copied. Only one of more than 14 bytes needs
    /// memory.
    pub fn bind(&mut self, number: usize, place: usize, cell: LentValue<'_>) -> Result<(), Declined>
        ensures bound { OnOk result ((p : PlainPrepared) → named self.old number ≡ Some p → NamesNow self.old self.new number (Some (record p { bound = slice_set p.bound place (cell_value cell.entry) }))) }
        ensures missing { named self.old number ≡ None → result ≡ Err declined.NoSuchStatement }
        ensures past { (p : PlainPrepared) → named self.old number ≡ Some p → length p.bound ≤ place → result ≡ Err declined.NoSuchPlace }
        ensures declined { IfErr result (λ e. e ≢ declined.NoMemory → (p : PlainPrepared) → named self.old number ≡ Some p → length p.bound ≤ place) }
        ensures small { IsSmall cell.entry → result ≢ Err declined.NoMemory }
        ensures unchanged { OnErr result (SameNamed self.old self.new) }
    {
        let Some(prepared) = self.kept.get_mut(number) else {
            return Err(Declined::NoSuchStatement);
        };
        prepared.bound.bind(place, cell)
    }

    /// Sets what the statement of a number means of the tables.
    pub fn set_resolution(&mut self, number: usize, resolution: Resolution) -> Result<(), Declined>
        ensures set { OnOk result ((p : PlainPrepared) → named self.old number ≡ Some p → NamesNow self.old self.new number (Some (record p { resolution = Some resolution }))) }
        ensures missing { named self.old number ≡ None → result ≡ Err declined.NoSuchStatement }
        ensures none { OnErr result (named self.old number ≡ None) }
        ensures unchanged { OnErr result (SameNamed self.old self.new) }
    {
        let Some(prepared) = self.kept.get_mut(number) else {
            drop(resolution);
            return Err(Declined::NoSuchStatement);
        };
        prepared.resolve(resolution);
        Ok(())
    }

    /// Forgets what each statement means of the tables.
    pub fn forget(&mut self)
        ensures { (number : ℕ) → named self.new number ≡ option_map unresolved (named self.old number) }
    {
        for number in 0..self.kept.capacity() {
            if let Some(prepared) = self.kept.get_mut(number) {
                prepared.forget();
            }
        }
    }
}
