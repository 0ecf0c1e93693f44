//! The plan of a select in words, a line for each of its steps: how the rows of its first table are found, each join in turn, and
//! how rows are shown.

use crate::tables::{Seen, column_at, table_at};
use mm_catalog::Catalog;
use mm_session::{NextJoin, ToldPlan, Way};
use no_memory::NoMemory;
use plain_tables::{ColKind, Joined, Op, Place, Query, TableNumber, Test};
use plan_chooser::{JoinPlan, NextJoinPlan, SelectPlan};
use std::alloc::Global;
use std::fmt;

// A number of rows.
#[derive(Clone, Copy)]
struct Rows(u64);

// The column at a place of tables, by its full name.
#[derive(Clone, Copy)]
struct Named<'a> {
    tables: &'a [Seen<'a>],
    place: Place,
}

// What rows are found by.
#[derive(Clone, Copy)]
enum By<'a> {
    Key,
    KeyRange,
    Tree(Named<'a>),
    TreeRange(Named<'a>),
    Hash(Named<'a>),
    NewHash(Named<'a>),
    Trees(Named<'a>, Named<'a>),
    Links(Named<'a>),
    Pairs,
}

// How the rows of the first table are found: by an index, or by a scan.
#[derive(Clone, Copy)]
struct FirstStep<'a> {
    table: &'a Seen<'a>,
    by: Option<By<'a>>,
}

// The plan of a join.
#[derive(Clone, Copy)]
enum Chosen {
    // Of two whole tables.
    Whole(JoinPlan),
    // Of the rows so far with a table.
    Next(NextJoin),
}

// A join: the joined table, and the columns that are compared.
#[derive(Clone, Copy)]
struct JoinStep<'a> {
    table: &'a Seen<'a>,
    outer: Named<'a>,
    inner: Named<'a>,
    chosen: Chosen,
}

impl fmt::Display for Rows {
    fn fmt<W: fmt::Write>(&self, f: &mut fmt::Formatter<W>) -> fmt::Result {
        match self.0 {
            1 => write!(f, "1 row"),
            number => write!(f, "{number} rows"),
        }
    }
}

impl fmt::Display for Named<'_> {
    fn fmt<W: fmt::Write>(&self, f: &mut fmt::Formatter<W>) -> fmt::Result {
        let Some((table, column)) = column_at(self.tables, self.place) else {
            return Ok(());
        };
        let (table, column) = (table.name, column.name.as_str());
        write!(f, "{table}.{column}")
    }
}

impl fmt::Display for By<'_> {
    fn fmt<W: fmt::Write>(&self, f: &mut fmt::Formatter<W>) -> fmt::Result {
        match self {
            By::Key => write!(f, "the key"),
            By::KeyRange => write!(f, "a range of the key"),
            By::Tree(column) => write!(f, "the tree on {column}"),
            By::TreeRange(column) => write!(f, "a range of the tree on {column}"),
            By::Hash(column) => write!(f, "the hash on {column}"),
            By::NewHash(column) => write!(f, "a new hash on {column}"),
            By::Trees(outer, inner) => write!(f, "the trees on {outer} and {inner}"),
            By::Links(column) => write!(f, "the links of {column}"),
            By::Pairs => write!(f, "a comparison of each pair"),
        }
    }
}

impl<'a> Named<'a> {
    // Whether a hash is declared on it.
    fn has_hash(&self) -> bool {
        match self.tables.get(self.place.source) {
            Some(table) => table.relation.has_hash(self.place.column),
            None => false,
        }
    }

    // By the tree on it.
    fn by_tree(self) -> By<'a> {
        if self.place.column.0 == 0 {
            By::Key
        } else {
            By::Tree(self)
        }
    }

    // By a range of the tree on it.
    fn by_range(self) -> By<'a> {
        if self.place.column.0 == 0 {
            By::KeyRange
        } else {
            By::TreeRange(self)
        }
    }

    // By the hash that is declared on it, or by one that is made.
    fn by_hash(self) -> By<'a> {
        if self.has_hash() {
            By::Hash(self)
        } else {
            By::NewHash(self)
        }
    }
}

impl fmt::Display for FirstStep<'_> {
    fn fmt<W: fmt::Write>(&self, f: &mut fmt::Formatter<W>) -> fmt::Result {
        let (name, rows) = (self.table.name, Rows(self.table.relation.len()));
        match self.by {
            Some(by) => write!(f, "search of {name} by {by}, {rows}"),
            None => write!(f, "scan of {name}, {rows}"),
        }
    }
}

impl<'a> JoinStep<'a> {
    // Whether the outer column refers to the joined table, and is compared with its key.
    fn is_reference(&self) -> bool {
        let Some((_, column)) = column_at(self.outer.tables, self.outer.place) else {
            return false;
        };
        match &column.kind {
            ColKind::Ref(table) | ColKind::RefOrNull(table) => {
                self.inner.place.column.0 == 0 && table.as_str() == self.table.name
            }
            ColKind::Int | ColKind::Text => false,
        }
    }

    // What a join of two whole tables goes by.
    fn by_whole(&self, plan: JoinPlan) -> By<'a> {
        match plan {
            JoinPlan::Nested => By::Pairs,
            JoinPlan::HashJoin => self.inner.by_hash(),
            JoinPlan::TreeJoin => self.inner.by_tree(),
            JoinPlan::TreeMerge => By::Trees(self.outer, self.inner),
            JoinPlan::Precomputed if self.is_reference() => By::Links(self.outer),
            JoinPlan::Precomputed => By::Links(self.inner),
        }
    }

    // What a join of the rows so far goes by.
    fn by_next(&self, plan: NextJoinPlan) -> By<'a> {
        match plan {
            NextJoinPlan::Nested => By::Pairs,
            NextJoinPlan::HashJoin => self.inner.by_hash(),
            NextJoinPlan::TreeJoin => self.inner.by_tree(),
            NextJoinPlan::Precomputed => By::Links(self.outer),
        }
    }
}

impl fmt::Display for JoinStep<'_> {
    fn fmt<W: fmt::Write>(&self, f: &mut fmt::Formatter<W>) -> fmt::Result {
        let (name, rows) = (self.table.name, Rows(self.table.relation.len()));
        write!(f, "then join with {name} by ")?;
        match self.chosen {
            Chosen::Whole(plan) => {
                let by = self.by_whole(plan);
                write!(f, "{by}, {rows}")
            }
            Chosen::Next(next) if next.few == next.many => {
                let by = self.by_next(next.few);
                write!(f, "{by}, {rows}")
            }
            Chosen::Next(next) => {
                let (few, many) = (self.by_next(next.few), self.by_next(next.many));
                let most = Rows(self.table.relation.len() / 2);
                write!(f, "{few} from at most {most}, else by {many}, {rows}")
            }
        }
    }
}

// Puts the table of a number behind others.
fn push_table<'a>(
    tables: &mut Vec<Seen<'a>>,
    catalog: &'a Catalog,
    number: TableNumber,
) -> Result<(), NoMemory> {
    if let Some(table) = table_at(catalog, number) {
        tables.push(table)?;
    }
    Ok(())
}

// The tables of the sources of a query.
fn tables_of<'a>(
    alloc: Global,
    catalog: &'a Catalog,
    query: &Query,
) -> Result<Vec<Seen<'a>>, NoMemory> {
    let mut tables = Vec::new(alloc);
    push_table(&mut tables, catalog, query.source.table)?;
    for join in query.joins.as_slice() {
        push_table(&mut tables, catalog, join.source.table)?;
    }
    Ok(tables)
}

// The column of a test of the first table.
fn tested<'a>(tables: &'a [Seen<'a>], test: &Test) -> Named<'a> {
    Named {
        tables,
        place: Place {
            source: 0,
            column: test.column,
        },
    }
}

// The index by which a plan finds the rows of the first table, if it uses one.
fn first_by<'a>(tables: &'a [Seen<'a>], tests: &[Test], plan: SelectPlan) -> Option<By<'a>> {
    match plan {
        SelectPlan::Scan => None,
        SelectPlan::Hash(number) => Some(tested(tables, tests.get(number)?).by_hash()),
        SelectPlan::Tree(number) => {
            let test = tests.get(number)?;
            let column = tested(tables, test);
            Some(if test.op == Op::Eq {
                column.by_tree()
            } else {
                column.by_range()
            })
        }
    }
}

// The plan by which the rows of the first table are found.
fn first_plan(way: Way) -> SelectPlan {
    match way {
        Way::Search(plan) | Way::Found(plan) => plan,
        Way::Walk | Way::DistinctScan | Way::WholeTables(_) | Way::Batches => SelectPlan::Scan,
    }
}

// The plan of the join of a number.
fn join_plan(way: Way, number: usize, next: NextJoin) -> Chosen {
    match way {
        Way::WholeTables(plan) if number == 0 => Chosen::Whole(plan),
        _ => Chosen::Next(next),
    }
}

// Whether a test asks for the key.
fn asks_for_key(tests: &[Test]) -> bool {
    tests
        .iter()
        .any(|test| test.op == Op::Eq && test.column.0 == 0)
}

// How rows are shown.
fn shown(query: &Query, way: Way) -> &'static str {
    match way {
        Way::Search(_) if asks_for_key(query.source.tests.as_slice()) => {
            "show the only row from where it lies"
        }
        Way::Search(_) => "show one row from where it lies, or more from a list",
        Way::Walk => "show few rows from a list, or many in batches",
        Way::Batches => "show rows in batches",
        Way::DistinctScan => "show different rows from a list",
        Way::Found(_) | Way::WholeTables(_) if query.distinct => "show different rows from a list",
        Way::Found(_) | Way::WholeTables(_) => "show rows from a list",
    }
}

// The words of how the rows of the first table are found, and a line feed.
fn push_first(
    alloc: Global,
    words: &mut String,
    tables: &[Seen<'_>],
    tests: &[Test],
    plan: SelectPlan,
) -> Result<(), NoMemory> {
    let Some(table) = tables.first() else {
        return Ok(());
    };
    let step = FirstStep {
        table,
        by: first_by(tables, tests, plan),
    };
    Ok(words.push_str(&format!(in alloc; "{step}\n")?)?)
}

// The words of a join, and a line feed.
fn push_join(
    alloc: Global,
    words: &mut String,
    tables: &[Seen<'_>],
    number: usize,
    join: &Joined,
    chosen: Chosen,
) -> Result<(), NoMemory> {
    let source = number.saturating_add(1);
    let Some(table) = tables.get(source) else {
        return Ok(());
    };
    let inner = Place {
        source,
        column: join.inner,
    };
    let step = JoinStep {
        table,
        outer: Named {
            tables,
            place: join.outer,
        },
        inner: Named {
            tables,
            place: inner,
        },
        chosen,
    };
    Ok(words.push_str(&format!(in alloc; "{step}\n")?)?)
}

// The words of each join of a query, and a line feed behind each.
fn push_joins(
    alloc: Global,
    words: &mut String,
    tables: &[Seen<'_>],
    query: &Query,
    plan: &ToldPlan,
) -> Result<(), NoMemory> {
    for (number, (join, next)) in query.joins.as_slice().iter().zip(&plan.joins).enumerate() {
        let chosen = join_plan(plan.way, number, *next);
        push_join(alloc, words, tables, number, join, chosen)?;
    }
    Ok(())
}

/// The plan of a select in words, a line for each step. A search, a scan and a join tell how many rows their table has.
pub fn plan_words(
    alloc: Global,
    catalog: &Catalog,
    query: &Query,
    plan: &ToldPlan,
) -> Result<String, NoMemory> {
    let tables = tables_of(alloc, catalog, query)?;
    let tests = query.source.tests.as_slice();
    let mut words = String::new(alloc);
    push_first(alloc, &mut words, &tables, tests, first_plan(plan.way))?;
    push_joins(alloc, &mut words, &tables, query, plan)?;
    let shown = shown(query, plan.way);
    words.push_str(&format!(in alloc; "{shown}\n")?)?;
    Ok(words)
}
