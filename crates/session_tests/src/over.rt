//! Sessions over catalogs that were filled by their own calls. `tests/test_growths.py` counts the growths that `over`
//! meets.
ghost use Rattle.std.specs.Prelude.{◌≡◌, ◌∷◌, [], codes, IfOk};
ghost use Rattle.plain_tables.specs.ResolvedLaws.{IsGiven};
ghost use Rattle.plain_tables.specs.declared.command.Command.TheVariants as command;
ghost use Rattle.plain_tables.specs.declared.schema.ColKind.TheVariants as kind;
ghost use Rattle.plain_tables.specs.declared.value.Value.TheVariants as value;

use crate::calls::feeds;
use crate::pages::Page;
use mm_catalog::Catalog;
use mm_session::Session;
use plain_tables::{
    ColKind, Column, Command, Limits, NoMemory, Refusal, Resolved, Schema, Sequence, Text, Value,
};
use plan_chooser::Policy;
use std::alloc::Global;

// The command `table t (id int)`.
fn declaration(alloc: Global) -> Result<Command, NoMemory>
    ensures { IfOk result IsGiven }
{
    let mut columns = Sequence::new(alloc);
    columns.push(Column {
        name: Text::from_str(alloc, "id")?,
        kind: ColKind::Int,
    })?;
    Ok(Command::Table {
        name: Text::from_str(alloc, "t")?,
        schema: Schema { columns },
    })
}

// The command `insert t (ID)`.
fn insertion(alloc: Global, id: i64) -> Result<Command, NoMemory>
    ensures { IfOk result IsGiven }
{
    let mut values = Sequence::new(alloc);
    values.push(Value::Int(id))?;
    Ok(Command::Insert {
        table: Text::from_str(alloc, "t")?,
        values,
    })
}

// Declares a table, or puts in a row.
fn grow(catalog: &mut Catalog, command: Command) -> Result<(), Refusal>
    requires { IsGiven command }
{
    match catalog.resolve(command, &[])? {
        Resolved::Table { name, schema } => catalog.create(name, schema)?,
        Resolved::Insert { table, values } => catalog.insert(table, values.as_slice())?,
        _ => return Err(Refusal::NotACommand),
    }
    Ok(())
}

// A catalog of a table with the rows 1 to that.
fn filled(alloc: Global, rows: i64) -> Result<Catalog, Refusal> {
    let mut catalog = Catalog::new(alloc, Limits::STANDARD);
    grow(&mut catalog, declaration(alloc)?)?;
    for id in 1..=rows {
        grow(&mut catalog, insertion(alloc, id)?)?;
    }
    Ok(catalog)
}

// A session over a catalog.
fn begun(alloc: Global, catalog: Catalog) -> Option<Session> {
    Session::over(alloc, Policy::Auto, catalog).ok()
}

// What a session answers to a select of the row 5.
fn answer_of(alloc: Global, mut session: Session) -> Option<Vec<u8>> {
    let mut page = Page::new(alloc, 100, true).ok()?;
    feeds(&mut session, "select * from t where id = 5\n", &mut page).ok()?;
    Some(page.got)
}

fn tell(rt: &HostRuntime, what: &str) -> Option<()> {
    println!(rt; "{what}").ok()
}

// What a session over a table with the rows 1 to that answers, or none where something fails before. It is told when the
// catalog stands, and when the session does.
fn answer_over(rt: &HostRuntime, rows: i64) -> Option<Vec<u8>> {
    let catalog = filled(rt.alloc(), rows).ok()?;
    tell(rt, "the catalog stands")?;
    let session = begun(rt.alloc(), catalog)?;
    tell(rt, "the session stands")?;
    answer_of(rt.alloc(), session)
}

#[test]
fn over_no_rows_with_counted_growths(rt: HostRuntime) {
    let got = answer_over(&rt, 0).expect(&rt, "an answer");
    assert_eq!(rt; got.as_slice(), b"rows 0\nt.id\n".as_slice());
}

#[test]
fn over_a_thousand_rows_with_counted_growths(rt: HostRuntime) {
    let got = answer_over(&rt, 1_000).expect(&rt, "an answer");
    assert_eq!(rt; got.as_slice(), b"rows 1\nt.id\n5\n".as_slice());
}
