//! Worked lines: what each spells, or that it spells no command.

use mm_lang::{Line, ParseRefusal, parse, print};
use plain_tables::{Command, NoMemory};
use std::alloc::Global;

// Lines, and the canonical spellings of their commands. That of a line which spells none is empty here.
const SPELLINGS: &[(&str, &str)] = &[
    ("table t (id int)", "table t (id int)"),
    ("table t(id int,name text)", "table t (id int, name text)"),
    (
        " \ttable\tT_1(id int\t,table_ text ,_ int)  ",
        "table T_1 (id int, table_ text, _ int)",
    ),
    (
        "table emp(id int,dept ref dept null)",
        "table emp (id int, dept ref dept null)",
    ),
    (
        "table t ( a ref b , c\tref\td\tnull,e text,f ref t)",
        "table t (a ref b, c ref d null, e text, f ref t)",
    ),
    (
        "table t (a ref unull, ref_ ref null_ null)",
        "table t (a ref unull, ref_ ref null_ null)",
    ),
    (" drop  table\temp ", "drop table emp"),
    ("index emp dept tree", "index emp dept tree"),
    ("index\temp  trees hash\t", "index emp trees hash"),
    ("drop index emp dept hash", "drop index emp dept hash"),
    ("\tdrop index Tree hash_ tree", "drop index Tree hash_ tree"),
    (" tables\t", "tables"),
    ("load t 12", "load t 12"),
    (" load\tload_  007\t", "load load_ 7"),
    ("load t 0", "load t 0"),
    ("load t 00000000000000000000000000000000", "load t 0"),
    ("load t 9223372036854775807", "load t 9223372036854775807"),
    ("dump t", "dump t"),
    (" dump\tDump ", "dump Dump"),
    ("insert t (2)", "insert t (2)"),
    (
        "insert t(null,'null' , null)",
        "insert t (null, 'null', null)",
    ),
    ("insert t(1,-2,  3 )", "insert t (1, -2, 3)"),
    (
        "insert t (-9223372036854775808)",
        "insert t (-9223372036854775808)",
    ),
    (
        "insert t (9223372036854775807)",
        "insert t (9223372036854775807)",
    ),
    ("insert t (007, -07, -0)", "insert t (7, -7, 0)"),
    ("insert t (000000000000000000000000000001)", "insert t (1)"),
    ("insert Insert (1)", "insert Insert (1)"),
    ("insert t ('', 'a b')", "insert t ('', 'a b')"),
    (
        "insert t('a''b','''' , '''''')",
        "insert t ('a''b', '''', '''''')",
    ),
    (
        "insert t ('\t\r, (é) -- \"x\"',1)",
        "insert t ('\t\r, (é) -- \"x\"', 1)",
    ),
    ("select * from t", "select * from t"),
    ("select*from t", "select * from t"),
    ("select *from tables_", "select * from tables_"),
    (
        "select * from abcdefghijklmnopqrstuvwxyz_01234",
        "select * from abcdefghijklmnopqrstuvwxyz_01234",
    ),
    (
        "select  a,T.b from T where a>=-07",
        "select a, T.b from T where a >= -7",
    ),
    (
        "select  distinct a,T.b from T where a>=-07",
        "select distinct a, T.b from T where a >= -7",
    ),
    (
        "select distinct*from distinct_",
        "select distinct * from distinct_",
    ),
    (
        "select a.id from a\tjoin b on a.id=b . a",
        "select a.id from a join b on a.id = b.a",
    ),
    (
        "select*from a join  b on b.a = a . id join c on c .b=b.id where c.id<3 and a.id=2",
        "select * from a join b on b.a = a.id join c on c.b = b.id where c.id < 3 and a.id = 2",
    ),
    (
        "select * from t join t on t.a=t.a join join_ on on_.a=t.b join u on a.b=c.d join v on v.a=t.c",
        "select * from t join t on t.a = t.a join join_ on on_.a = t.b join u on a.b = c.d join v on v.a = t.c",
    ),
    (
        "select T . b from T where T\t. b<>1 and a=2 and c<3",
        "select T.b from T where T.b <> 1 and a = 2 and c < 3",
    ),
    (
        "select * from t where x='a'and y<=2",
        "select * from t where x = 'a' and y <= 2",
    ),
    (
        "select * from t where x>'a'",
        "select * from t where x > 'a'",
    ),
    ("update t set a=1", "update t set a = 1"),
    (
        "update t set a=-1 where t.b>=''",
        "update t set a = -1 where t.b >= ''",
    ),
    (
        "update t set a = 'x',b=2 where t.a='y'and b>-1",
        "update t set a = 'x', b = 2 where t.a = 'y' and b > -1",
    ),
    (
        "update t set a=null,b=1 where c=null and d<>null",
        "update t set a = null, b = 1 where c = null and d <> null",
    ),
    (
        "select * from t where a<null and b=null",
        "select * from t where a < null and b = null",
    ),
    ("delete t", "delete t"),
    ("delete t where id = 3", "delete t where id = 3"),
    (
        "update t set a=1, b=2, c=3, d=4, e='it''s' where t.b='x' and c='y'",
        "update t set a = 1, b = 2, c = 3, d = 4, e = 'it''s' where t.b = 'x' and c = 'y'",
    ),
    ("delete t where id < > 3", ""),
    ("delete t where id = ?", ""),
    ("insert t (?, 'a')", ""),
    ("insert t (1, 'it's')", ""),
    ("", ""),
];

fn printed(alloc: Global, command: Command) -> Result<String, NoMemory> {
    let text = print(alloc, &command);
    drop(command);
    text
}

// The canonical spelling of the command that the line spells. A text with a line feed is no line.
fn spelled(alloc: Global, line: &str) -> Result<String, ParseRefusal> {
    if line.as_bytes().contains(&b'\n') {
        return Err(ParseRefusal::Syntax);
    }
    match parse(alloc, &Line::new(line)) {
        Ok(command) => Ok(printed(alloc, command)?),
        Err(refusal) => Err(refusal),
    }
}

// Whether that is the canonical spelling, or the line spells no command where it is empty.
fn spells(alloc: Global, line: &str, canonical: &str) -> Result<bool, ParseRefusal> {
    match spelled(alloc, line) {
        Ok(text) => Ok(text.as_str() == canonical),
        Err(ParseRefusal::Syntax) => Ok(canonical.is_empty()),
        Err(refused) => Err(refused),
    }
}

// The first line that isn't read as told, or whose canonical spelling isn't.
fn first_misread(alloc: Global) -> Result<Option<&'static str>, ParseRefusal> {
    for (line, canonical) in SPELLINGS {
        if !spells(alloc, *line, *canonical)? || !spells(alloc, *canonical, *canonical)? {
            return Ok(Some(*line));
        }
    }
    Ok(None)
}

#[test]
fn lines_are_read_and_printed(rt: HostRuntime) {
    assert_eq!(rt; first_misread(rt.alloc()), Ok(None));
}

#[test]
fn lines_under_refusal(rt: HostRuntime) {
    let misread = first_misread(rt.alloc()).unwrap_or(None);
    assert_eq!(rt; misread, None);
}
