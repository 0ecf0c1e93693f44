//! The command language: from a line to the command that it spells, and from a command to its canonical spelling; and from a
//! line with question marks for values to the statement that it spells.
//!
//! It doesn't care which tables there are, nor what a command does to them: a name is a name here.
//!
//! A line is symbols with blanks between them. The module `lexemes` finds the characters of a text's first symbol, `line` keeps
//! those of a line,
//! `symbols`, `numbers`, `texts`, `items` and `joins` read what they stand for, and `parser` has a function for each production of
//! the grammar. No memory is taken but for what the command holds, and none to tell the length of the block behind a
//! line. The module `printer` writes a command in its one canonical spelling, which `items`, `joins`, `numbers` and
//! `texts` have the parts of, to anything that takes text (`sink`).
//!
//! The module `statements` reads statements, by the productions of `parser` for what commands and statements have in common,
//! with the items of `slots`, in which a hole may stand for a value.
//!
//! A line that spells nothing stops at a symbol (`stops`), at a place of the grammar. `places` has what may stand at each place,
//! as reasons list it. A production that is changed changes its places too.
#![tactic(auto)]

mod items;
mod joins;
mod lexemes;
mod line;
mod numbers;
mod parser;
mod places;
mod printer;
mod refusal;
mod sink;
mod slots;
mod statements;
mod stops;
mod symbols;
mod texts;

pub use lexemes::split_lexeme;
pub use line::Line;
pub use parser::{block_length, parse, parse_or_stop};
pub use places::{LinePlace, Wanted};
pub use printer::{print, print_index, print_load, print_table};
pub use refusal::ParseRefusal;
pub use sink::Sink;
pub use statements::{parse_statement, parse_statement_or_stop};
pub use stops::{Stop, Stopped};
pub use symbols::{LONGEST_NAME, is_reserved_word, is_whole_name};
