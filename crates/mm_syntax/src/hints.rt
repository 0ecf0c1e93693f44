//! What is said to those who write as other databases want it: symbols that stand where they may not, and what is to be known.

use mm_lang::{LinePlace, Wanted};

// Where a hint is for, by what may stand there.
#[derive(Clone, Copy)]
enum Spot {
    // The first word of a line.
    Command,
    Type,
    // Behind a column or a value in parentheses.
    Listed,
    // Behind an item of a select.
    Item,
    Operator,
    Value,
    // Where the line may end.
    End,
    Other,
}

// Symbols, in capitals or not; and what is to be known.
type Hint = (&'static [&'static str], &'static str);

const OPERATORS: &str = "the operators are =, <>, <, <=, > and >=";

static COMMAND: [Hint; 10] = [
    (
        &["create"],
        "table T (id int) declares a table, and index T id hash an index",
    ),
    (
        &["alter"],
        "the columns of a table stay as they were declared",
    ),
    (
        &["begin", "start", "commit", "rollback", "savepoint"],
        "each command is done whole or not at all, and several make no transaction",
    ),
    (&["truncate"], "delete T takes out all rows of T"),
    (
        &["show", "describe", "desc", "\\"],
        "tables shows how each table is declared",
    ),
    (&["quit", "exit"], "a session ends with its input"),
    (
        &["replace", "upsert", "merge"],
        "insert adds a row, and update changes rows",
    ),
    (
        &["copy", "import"],
        "a load is load T 20, with 20 bytes behind the line",
    ),
    (&["."], "commands that begin with a dot are for mmdb-shell"),
    (
        &["help", "?"],
        "the commands are table, drop, index, insert, update, delete, select, load, dump and tables",
    ),
];

static TYPE: [Hint; 7] = [
    (
        &[
            "integer", "bigint", "smallint", "tinyint", "number", "serial",
        ],
        "the types are int, text and ref T, and int has 64 bits",
    ),
    (
        &["varchar", "char", "character", "string", "uuid", "json"],
        "the types are int, text and ref T, and text has no length",
    ),
    (
        &["bool", "boolean", "bit"],
        "the types are int, text and ref T, and int can hold 1 and 0",
    ),
    (
        &["float", "double", "real", "decimal", "numeric", "money"],
        "the types are int, text and ref T, and there are no fractions",
    ),
    (
        &["date", "time", "datetime", "timestamp"],
        "the types are int, text and ref T, and a date can be a text, as '2024-01-31'",
    ),
    (
        &["blob", "bytea", "binary"],
        "the types are int, text and ref T, and a text is UTF-8",
    ),
    (
        &["key"],
        "the first column is the key, and a reference is dept ref dept",
    ),
];

static LISTED: [Hint; 5] = [
    (&["primary"], "the first column is the key"),
    (
        &["not"],
        "a column takes nulls only where ref T null says so",
    ),
    (&["unique"], "only the key, the first column, is unique"),
    (
        &["default", "auto_increment", "autoincrement"],
        "an insert has a value for each column",
    ),
    (
        &["check", "constraint", "collate", "comment"],
        "a column has a name and a type alone",
    ),
];

static ITEM: [Hint; 1] = [(&["("], "there are no functions")];

static OPERATOR: [Hint; 7] = [
    (&["!"], "the operator is <>"),
    (&["is"], "the condition is = null or <> null"),
    (
        &["like", "ilike", "glob", "regexp"],
        "a text is compared as a whole",
    ),
    (&["between"], "the conditions are >= and <="),
    (&["in"], "a condition has one value"),
    (
        &["not"],
        "there is no not: the operators are =, <>, <, <=, > and >=",
    ),
    (&["("], "there are no functions"),
];

static VALUE: [Hint; 8] = [
    (&["="], "the operator is ="),
    (&["<", ">"], OPERATORS),
    (&["true", "false"], "values are integers, texts and null"),
    (&["default"], "an insert has a value for each column"),
    (
        &["?", ":", "$", "@"],
        "a ? is allowed in prepared statements only",
    ),
    (&["+"], "a number has no + before it"),
    (&["-"], "a - stands directly before the digits of a number"),
    (&["."], "there are no fractions"),
];

static END: [Hint; 10] = [
    (
        &["limit", "offset", "fetch"],
        "a command applies to all rows that meet its conditions",
    ),
    (&["order"], "rows come in the order of their keys"),
    (&["group", "having"], "there are no groups"),
    (&["inner"], "a join is join U on T.a = U.b"),
    (
        &["left", "right", "full", "cross", "natural"],
        "there are inner joins only, as join U on T.a = U.b",
    ),
    (
        &["exists", "cascade"],
        "a table is dropped by drop table T alone",
    ),
    (&["union", "except", "intersect"], "a line is one command"),
    (&["or", "|"], "conditions are joined by and alone"),
    (&["&"], "conditions are joined by and"),
    (&[")"], "no parenthesis is open"),
];

static ANYWHERE: [Hint; 7] = [
    (&["references"], "a reference is dept ref dept"),
    (
        &["if", "exists"],
        "table T (id int) declares a table, and is refused where T exists",
    ),
    (&["as"], "there are no aliases"),
    (&["("], "only table and insert have parentheses"),
    (&["+", "-", "*", "/", "%", "|"], "there is no arithmetic"),
    (
        &["\"", "`"],
        "texts stand between single quote marks, and names between none",
    ),
    (&[";"], "a line needs no sign at its end"),
];

// The spot of a place.
fn spot_of(place: LinePlace) -> Spot {
    match place {
        LinePlace::Command | LinePlace::Statement => Spot::Command,
        LinePlace::ColumnType => Spot::Type,
        LinePlace::BehindReference | LinePlace::BehindListed => Spot::Listed,
        LinePlace::BehindItemName | LinePlace::BehindItem | LinePlace::From => Spot::Item,
        LinePlace::BehindConditionName | LinePlace::Operator => Spot::Operator,
        LinePlace::Value | LinePlace::ComparedValue => Spot::Value,
        LinePlace::BehindSetting | LinePlace::BehindDeletedTable | LinePlace::BehindTable =>
            Spot::End,
        LinePlace::BehindCondition | LinePlace::End => Spot::End,
        _ => Spot::Other,
    }
}

/// Whether a symbol is one of these, in capitals or not.
pub fn is_one_of(symbol: &str, symbols: &[&str]) -> bool {
    symbols
        .iter()
        .any(|known| known.eq_ignore_ascii_case(symbol))
}

// Whether a line may end at a place.
fn may_end(place: LinePlace) -> bool {
    place
        .wanted()
        .iter()
        .any(|wanted| matches!(wanted, Wanted::End))
}

// Whether a command begins with this word.
fn begins_command(word: &str) -> bool {
    LinePlace::Command.wanted().iter().any(
        |wanted| matches!(wanted, Wanted::Keyword(keyword) if *keyword == word),
    )
}

// The hints for a spot.
fn hints_at(spot: Spot) -> &'static [Hint] {
    match spot {
        Spot::Command => &COMMAND,
        Spot::Type => &TYPE,
        Spot::Listed => &LISTED,
        Spot::Item => &ITEM,
        Spot::Operator => &OPERATOR,
        Spot::Value => &VALUE,
        Spot::End => &END,
        Spot::Other => &[],
    }
}

// What is to be known of a symbol by these hints.
fn hint_of(hints: &'static [Hint], symbol: &str) -> Option<&'static str> {
    let found = hints.iter().find(|hint| is_one_of(symbol, hint.0))?;
    Some(found.1)
}

/// What is to be known where a symbol stands at a place where it may not.
pub fn hint(place: LinePlace, symbol: &str) -> Option<&'static str> {
    if may_end(place) && begins_command(symbol) {
        return Some("a line is one command");
    }
    match hint_of(hints_at(spot_of(place)), symbol) {
        Some(words) => Some(words),
        None => hint_of(&ANYWHERE, symbol),
    }
}
