//! The resolved command that a template is with values in its holes. The values are copied, into the room of a command that was made
//! before.
ghost use Rattle.std.specs.Prelude.{◌≡◌, IfOk, OnOk};
ghost use Rattle.plain_statements.specs.Finishing.{filled_query, filled_template};
ghost use Rattle.plain_statements.specs.declared.resolution.Template.TheVariants as template;

mod items;

pub(crate) use items::filled_each;
use items::{Fill, fill_each};
use no_memory::NoMemory;
use plain_statements::{SlotAssignment, SlotQuery, SlotTest, Template};
use plain_tables::{Query, Resolved, Shown, TableNumber, Value};
use std::alloc::Global;
use std::mem::replace;

fn shown_copied(alloc: Global, values: &[Value], shown: &Shown) -> Result<Shown, NoMemory>
    ensures { IfOk result (λ copy. copy ≡ shown.now) }
{
    match shown {
        Shown::All => Ok(Shown::All),
        Shown::Columns(places) => Ok(Shown::Columns(filled_each(
            alloc,
            values,
            places.as_slice(),
        )?)),
    }
}

fn fill_shown(
    kept: &mut Shown,
    alloc: Global,
    values: &[Value],
    shown: &Shown,
) -> Result<(), NoMemory>
    ensures { OnOk result (kept.new ≡ shown.now) }
{
    if let Shown::Columns(kept) = kept {
        if let Shown::Columns(places) = shown {
            return fill_each(kept, alloc, values, places);
        }
    }
    *kept = shown_copied(alloc, values, shown)?;
    Ok(())
}

fn filled_update(
    alloc: Global,
    values: &[Value],
    table: TableNumber,
    assignments: &[SlotAssignment],
    tests: &[SlotTest],
) -> Result<Resolved, NoMemory>
    ensures { IfOk result (λ filled. filled ≡ filled_template values.now (template.Update table assignments.now tests.now)) }
{
    let assignments = filled_each(alloc, values, assignments)?;
    Ok(Resolved::Update {
        table,
        assignments,
        tests: filled_each(alloc, values, tests)?,
    })
}

fn query_of(alloc: Global, values: &[Value], query: &SlotQuery) -> Result<Query, NoMemory>
    ensures { IfOk result (λ filled. filled ≡ filled_query values.now query.now) }
{
    Ok(Query {
        distinct: query.distinct,
        shown: shown_copied(alloc, values, &query.shown)?,
        source: query.source.to_filled(alloc, values)?,
        joins: filled_each(alloc, values, query.joins.as_slice())?,
    })
}

// The resolved command that a template is with these values in its holes.
fn filled_of(alloc: Global, values: &[Value], template: &Template) -> Result<Resolved, NoMemory>
    ensures { IfOk result (λ filled. filled ≡ filled_template values.now template.now) }
{
    match template {
        Template::Insert { table, slots } => Ok(Resolved::Insert {
            table: *table,
            values: filled_each(alloc, values, slots.as_slice())?,
        }),
        Template::Update {
            table,
            assignments,
            tests,
        } => filled_update(
            alloc,
            values,
            *table,
            assignments.as_slice(),
            tests.as_slice(),
        ),
        Template::Delete { table, tests } => Ok(Resolved::Delete {
            table: *table,
            tests: filled_each(alloc, values, tests.as_slice())?,
        }),
        Template::Select(query) => Ok(Resolved::Select(query_of(alloc, values, query)?)),
    }
}

fn fill_query(
    kept: &mut Query,
    alloc: Global,
    values: &[Value],
    query: &SlotQuery,
) -> Result<(), NoMemory>
    ensures { OnOk result (kept.new ≡ filled_query values.now query.now) }
{
    kept.distinct = query.distinct;
    fill_shown(&mut kept.shown, alloc, values, &query.shown)?;
    query.source.fill(alloc, values, &mut kept.source)?;
    fill_each(&mut kept.joins, alloc, values, &query.joins)
}

/// Makes a command the resolved one that a template is with these values in its holes. What is of the same form is changed where it
/// stands.
pub fn fill(
    kept: &mut Resolved,
    alloc: Global,
    values: &[Value],
    template: &Template,
) -> Result<(), NoMemory>
    ensures { OnOk result (kept.new ≡ filled_template values.now template.now) }
{
    match template {
        Template::Insert { table, slots } => {
            if let Resolved::Insert {
                table: of,
                values: row,
            } = kept
            {
                *of = *table;
                return fill_each(row, alloc, values, slots);
            }
        }
        Template::Update {
            table,
            assignments,
            tests,
        } => {
            if let Resolved::Update {
                table: of,
                assignments: sets,
                tests: asked,
            } = kept
            {
                *of = *table;
                fill_each(sets, alloc, values, assignments)?;
                return fill_each(asked, alloc, values, tests);
            }
        }
        Template::Delete { table, tests } => {
            if let Resolved::Delete {
                table: of,
                tests: asked,
            } = kept
            {
                *of = *table;
                return fill_each(asked, alloc, values, tests);
            }
        }
        Template::Select(query) => {
            if let Resolved::Select(asked) = kept {
                return fill_query(asked, alloc, values, query);
            }
        }
    }
    drop(replace(kept, filled_of(alloc, values, template)?));
    Ok(())
}
