//! Readers and writers that fail.

use crate::calls::{answers, feeds, finishes, opened};
use crate::pages::Page;
use mm_session::{Answer, RunFault, Session, SessionFault, run};
use plain_tables::NoMemory;
use plan_chooser::Policy;
use std::alloc::Global;
use std::io;
use std::io::Read;

// Its second request ends where the stream does.
const STREAM: &str = "table t (id int)\ninsert t (2)";

/// Gives the stream in one read, and then ends or fails.
#[derive(Drop)]
struct Source {
    left: &'static [u8],
    fails: bool,
}

impl Read for Source {
    fn read(&mut self, buf: &mut [u8]) -> io::Result<usize> {
        if self.fails && self.left.is_empty() {
            return Err(io::Error::from(io::ErrorKind::Other));
        }
        self.left.read(buf)
    }
}

/// A run over that stream to a page: what it says, and what it has written.
struct Case {
    name: &'static str,
    reader_fails: bool,
    room: usize,
    flushes: bool,
    says: Result<(), RunFault>,
    writes: &'static str,
}

const CASES: [Case; 4] = [
    Case {
        name: "nothing fails",
        reader_fails: false,
        room: 100,
        flushes: true,
        says: Ok(()),
        writes: "ok\nok 1\n",
    },
    Case {
        name: "a reader that fails",
        reader_fails: true,
        room: 100,
        flushes: true,
        says: Err(RunFault::Read),
        writes: "ok\n",
    },
    Case {
        name: "a page that is full",
        reader_fails: false,
        room: 5,
        flushes: true,
        says: Err(RunFault::Write),
        writes: "ok\nok",
    },
    Case {
        name: "a page that does not flush",
        reader_fails: false,
        room: 100,
        flushes: false,
        says: Err(RunFault::Write),
        writes: "ok\n",
    },
];

// Whether a run is as the case says.
fn runs_so(alloc: Global, case: &Case) -> Result<bool, NoMemory> {
    let mut page = Page::new(alloc, case.room, case.flushes)?;
    let mut source = Source {
        left: STREAM.as_bytes(),
        fails: case.reader_fails,
    };
    let said = run(alloc, &mut source, &mut page, Policy::Auto);
    Ok(said == case.says && page.got.as_slice() == case.writes.as_bytes())
}

#[test]
fn a_run_tells_its_faults(rt: HostRuntime) -> Result<(), NoMemory> {
    for case in &CASES {
        assert!(rt; runs_so(rt.alloc(), case)?, "{}", case.name);
    }
    Ok(())
}

// What a session says of two requests on a page, and then of these again and of its end, on the page with more room. Before
// its end it answers a request.
fn faults(
    mut session: Session,
    page: &mut Page,
    answer: &mut Answer,
) -> [Result<(), SessionFault>; 3] {
    let requests = "table t (id int)\ninsert t (2)\n";
    let first = feeds(&mut session, requests, page);
    page.room = 100;
    let again = feeds(&mut session, requests, page);
    let _ = answers(&mut session, "select * from t", "", answer);
    [first, again, finishes(session, page)]
}

#[test]
fn a_writer_that_fails_ends_the_stream_alone(rt: HostRuntime) -> Result<(), NoMemory> {
    let mut page = Page::new(rt.alloc(), 5, true)?;
    let mut answer = Answer::new(rt.alloc())?;
    let said = faults(opened(rt.alloc())?, &mut page, &mut answer);
    let ended = Err(SessionFault::Ended);
    assert_eq!(rt; said, [Err(SessionFault::Write), ended, ended]);
    assert_eq!(rt; page.got.as_slice(), b"ok\nok".as_slice());
    assert_eq!(rt; answer.as_slice(), b"rows 1\nt.id\n2\n".as_slice());
    Ok(())
}
