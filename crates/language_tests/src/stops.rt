//! Where lines stop to be statements, told by worked cases. Those of commands are seen in the program's reasons.

use mm_lang::{Line, LinePlace, Stop, parse_statement_or_stop};
use std::alloc::Global;

// Lines, the bytes that are left of each where it stops, and the place.
const STOPS: &[(&str, usize, LinePlace)] = &[
    ("", 0, LinePlace::Statement),
    (" tabel", 6, LinePlace::Statement),
    ("table t (id int)", 16, LinePlace::Statement),
    ("insert t (?, ?? )", 3, LinePlace::BehindListed),
    ("insert t (?, ?)  ?", 3, LinePlace::End),
    ("insert t (? , id)", 4, LinePlace::Value),
    ("update t set n = ?, ? = 1", 6, LinePlace::Column),
    (
        "delete t where id = ? or id = 1",
        10,
        LinePlace::BehindCondition,
    ),
    ("select ? from t where id = 1", 22, LinePlace::Select),
    ("select id from t where t.id ? 1", 4, LinePlace::Operator),
    ("select id from t where id = ", 1, LinePlace::ComparedValue),
];

// Where a line stops to be a statement. A text with a line feed is no line.
fn stop_of(alloc: Global, line: &str) -> Option<Stop> {
    if line.as_bytes().contains(&b'\n') {
        return None;
    }
    let stopped = parse_statement_or_stop(alloc, &Line::new(line)).err()?;
    stopped.stop()
}

#[test]
fn statements_stop_where_they_are_told_to(rt: HostRuntime) {
    for (line, left, place) in STOPS {
        let stop = stop_of(rt.alloc(), *line).map(|stop| (stop.left, stop.place));
        assert!(rt; stop == Some((*left, *place)), "{line}");
    }
}
