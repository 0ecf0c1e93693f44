//! The words that the program is started with.

use clap::error::ErrorKind;
use clap::{Arg, ArgAction, ArgMatches, Command, Error};
use mm_batch::Origin;
use plan_chooser::{POLICY_NAMES, Policy};
use std::alloc::AllocError;
use std::{env, io};

// The option that names a policy.
const POLICY: &str = "policy";

// The option that wants reasons.
const EXPLAIN: &str = "explain";

// The option that wants no more after a refusal.
const STOP: &str = "stop";

// The option that loads a CSV file.
const LOAD: &str = "load";

// The files of command lines.
const FILES: &str = "files";

/// What the words ask for.
#[derive(Drop)]
pub struct Wish<'a> {
    pub policy: Policy,
    /// Whether each refusal is to be named on standard error, with its reason.
    pub explain: bool,
    /// Whether the first refusal is to be the last answer.
    pub stop: bool,
    /// What is to be read, in its order.
    pub origins: Vec<Origin<'a>>,
}

// The option for the policy. It is auto where none is named.
fn policy_option<'a>(rt: &HostRuntime) -> Arg<'a> {
    Arg::new(rt.alloc(), POLICY)
        .long(POLICY)
        .value_name("POLICY")
        .value_parser(POLICY_NAMES)
        .default_value("auto")
        .help("How plans are chosen; no policy changes an answer")
}

// The option that wants reasons.
fn explain_option<'a>(rt: &HostRuntime) -> Arg<'a> {
    Arg::new(rt.alloc(), EXPLAIN)
        .long(EXPLAIN)
        .action(ArgAction::SetTrue)
        .help("Names each refusal on standard error, with its line and the reason")
}

// The option that wants no more after a refusal.
fn stop_option<'a>(rt: &HostRuntime) -> Arg<'a> {
    Arg::new(rt.alloc(), STOP)
        .long(STOP)
        .action(ArgAction::SetTrue)
        .help("Ends at the first refusal, which it names so, with status 5")
}

// The option that loads a CSV file.
fn load_option<'a>(rt: &HostRuntime) -> Arg<'a> {
    Arg::new(rt.alloc(), LOAD)
        .long(LOAD)
        .value_name("TABLE=FILE")
        .action(ArgAction::Append)
        .help("Loads a CSV file into a table, where it stands among the files")
}

// The files of command lines.
fn file_words<'a>(rt: &HostRuntime) -> Arg<'a> {
    Arg::new(rt.alloc(), FILES)
        .value_name("FILE")
        .action(ArgAction::Append)
        .help("Files of command lines, read in their order; - is standard input")
}

// The program as `clap` sees it.
fn command<'a>(rt: &HostRuntime) -> Result<Command<'a>, AllocError> {
    Command::new(rt.alloc(), "mmdb")
        .version("0.1.0")
        .about("Answers the command lines of files, or of standard input, on standard output")
        .arg(policy_option(rt))?
        .arg(explain_option(rt))?
        .arg(stop_option(rt))?
        .arg(load_option(rt))?
        .arg(file_words(rt))
}

// That a word has this fault, or that there was no memory to say so.
fn fault_of(rt: &HostRuntime, words: &str) -> Error {
    let Ok(mut command) = command(rt) else {
        return Error::from(AllocError);
    };
    match command.error(ErrorKind::InvalidValue, words) {
        Ok(fault) => fault,
        Err(refused) => Error::from(refused),
    }
}

/// The words that the program was started with.
pub fn all_words(rt: &HostRuntime) -> Result<Vec<String>, Error> {
    match env::args(rt) {
        Ok(args) => Ok(args.collect(rt.alloc())?),
        Err(error) if error.kind() == io::ErrorKind::OutOfMemory => Err(Error::from(AllocError)),
        Err(_) => Err(fault_of(rt, "a word is not UTF-8")),
    }
}

// A source, and its place among the words.
type Placed<'a> = (usize, Origin<'a>);

// Puts the files among the sources.
fn push_files<'a>(sources: &mut Vec<Placed<'a>>, matches: &ArgMatches<'a>) -> Result<(), Error> {
    let places = matches.indices_of(FILES).unwrap_or(&[]);
    let words = matches.get_strs(FILES).unwrap_or(&[]);
    for (place, word) in places.iter().zip(words.iter()) {
        sources.push((*place, Origin::of_word(*word)))?;
    }
    Ok(())
}

// Puts the loads among the sources.
fn push_loads<'a>(
    rt: &HostRuntime,
    sources: &mut Vec<Placed<'a>>,
    matches: &ArgMatches<'a>,
) -> Result<(), Error> {
    let places = matches.indices_of(LOAD).unwrap_or(&[]);
    let words = matches.get_strs(LOAD).unwrap_or(&[]);
    for (place, word) in places.iter().zip(words.iter()) {
        let Some(origin) = Origin::of_load(*word) else {
            return Err(fault_of(rt, "--load takes TABLE=FILE, with the name of a table"));
        };
        sources.push((*place, origin))?;
    }
    Ok(())
}

// What is to be read: files and loads as they stand among the words, or standard input where there are none.
fn origins<'a>(rt: &HostRuntime, matches: &ArgMatches<'a>) -> Result<Vec<Origin<'a>>, Error> {
    let mut sources = Vec::new(rt.alloc());
    push_files(&mut sources, matches)?;
    push_loads(rt, &mut sources, matches)?;
    if sources.is_empty() {
        sources.push((0, Origin::Input))?;
    }
    sources.sort_by_key(|source| source.0)?;
    let mut origins = Vec::with_capacity(rt.alloc(), sources.len())?;
    for (_, origin) in &sources {
        origins.push(*origin)?;
    }
    Ok(origins)
}

/// What the words ask for. An error is a wrong word, a request for help or the version, or running out of memory.
pub fn read_words<'a>(rt: &HostRuntime, words: &'a [String]) -> Result<Wish<'a>, Error> {
    let matches = command(rt)?.try_get_matches_from(words)?;
    Ok(Wish {
        policy: matches
            .get_str(POLICY)
            .and_then(Policy::named)
            .unwrap_or_default(),
        explain: matches.get_flag(EXPLAIN),
        stop: matches.get_flag(STOP),
        origins: origins(rt, &matches)?,
    })
}
