//! How names, values and symbols stand in a reason: whole where they are short, and else cut.

use plain_tables::SeenValue;
use std::fmt;

// The most characters that are shown of a text.
const MOST_SHOWN: usize = 40;

// How the characters of a text are shown.
#[derive(Clone, Copy)]
enum Form {
    // As they are.
    Plain,
    // As a line spells a text: each quote mark in it is doubled.
    Spelled,
    // Those that are not ASCII with their codes.
    Coded,
}

// A character in that form. One that is not seen is shown by its code.
#[derive(Clone, Copy)]
struct Clear(char, Form);

/// A text, cut. Characters that are not seen, or turn the direction of a terminal, are shown by their codes.
#[derive(Clone, Copy)]
pub struct Cut<'a> {
    text: &'a str,
    // what stands at both of its ends
    mark: &'static str,
    form: Form,
}

/// A value as a line spells it, cut.
#[derive(Clone, Copy)]
pub struct Shown<'a>(pub SeenValue<'a>);

impl<'a> Cut<'a> {
    /// A name, or another text that is shown as it is.
    pub fn of(text: &'a str) -> Cut<'a> {
        Cut {
            text,
            mark: "",
            form: Form::Plain,
        }
    }

    // A text as a line spells it.
    fn spelled(text: &'a str) -> Cut<'a> {
        Cut {
            text,
            mark: "'",
            form: Form::Spelled,
        }
    }

    /// A symbol that may not stand where it stands. A character that is not ASCII is shown with its code.
    pub fn symbol(text: &'a str) -> Cut<'a> {
        Cut {
            text,
            mark: "",
            form: Form::Coded,
        }
    }

    /// A field of a block. One that is empty is called so, and one with a blank at an end stands between quote marks.
    pub fn field(text: &'a str) -> Cut<'a> {
        if text.is_empty() {
            return Cut::of("empty");
        }
        let is_padded = text.starts_with(' ') || text.ends_with(' ');
        Cut {
            text,
            mark: if is_padded { "\"" } else { "" },
            form: Form::Plain,
        }
    }
}

// Whether a character is not seen, or moves or turns what stands beside it.
fn is_unseen(c: char) -> bool {
    match c {
        '\u{ad}' | '\u{61c}' | '\u{180e}' | '\u{feff}' => true,
        '\u{200b}'..='\u{200f}' | '\u{2028}'..='\u{202e}' | '\u{2060}'..='\u{206f}' => true,
        '\u{fff9}'..='\u{fffb}' | '\u{e0000}'..='\u{e007f}' => true,
        _ => c.is_control(),
    }
}

impl fmt::Display for Clear {
    fn fmt<W: fmt::Write>(&self, f: &mut fmt::Formatter<W>) -> fmt::Result {
        let (c, code) = (self.0, u32::from(self.0));
        if is_unseen(c) {
            return write!(f, "<U+{code:04X}>");
        }
        match self.1 {
            Form::Spelled if c == '\'' => write!(f, "''"),
            Form::Coded if !c.is_ascii() => write!(f, "{c} (U+{code:04X})"),
            _ => write!(f, "{c}"),
        }
    }
}

impl fmt::Display for Cut<'_> {
    fn fmt<W: fmt::Write>(&self, f: &mut fmt::Formatter<W>) -> fmt::Result {
        let mark = self.mark;
        write!(f, "{mark}")?;
        for c in self.text.chars().take(MOST_SHOWN) {
            let clear = Clear(c, self.form);
            write!(f, "{clear}")?;
        }
        let rest = if self.text.chars().count() > MOST_SHOWN {
            "..."
        } else {
            ""
        };
        write!(f, "{rest}{mark}")
    }
}

impl fmt::Display for Shown<'_> {
    fn fmt<W: fmt::Write>(&self, f: &mut fmt::Formatter<W>) -> fmt::Result {
        match self.0 {
            SeenValue::Null => write!(f, "null"),
            SeenValue::Int(number) => write!(f, "{number}"),
            SeenValue::Text(text) => {
                let text = Cut::spelled(text);
                write!(f, "{text}")
            }
            SeenValue::Link(number) => write!(f, "row {number}"),
        }
    }
}
