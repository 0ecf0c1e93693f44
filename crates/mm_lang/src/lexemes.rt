//! Where the symbols of a line begin and end.

ghost use Rattle.std.specs.Prelude.{◌≡◌, ◌≤◌, length};
ghost use Rattle.std.specs.List.{prefix_len};
ghost use Rattle.plain_tables.specs.Names.{is_letter, is_word_character};
ghost use Rattle.plain_tables.specs.Spelling.{is_blank};
ghost use Rattle.plain_tables.specs.Reading.{lexeme, after_lexeme, lexeme_length, length_behind, text_length, operator_length, is_operator};

/// Whether a character is `a` to `z`, `A` to `Z` or `_`.
pub fn is_letter_byte(c: u8) -> bool
    ensures { result ≡ is_letter c }
{
    matches!(c, b'a'..=b'z' | b'A'..=b'Z' | b'_')
}

/// Whether a character is a letter or a digit.
pub fn is_word_byte(c: u8) -> bool
    ensures { result ≡ is_word_character c }
{
    // Small letters are asked for first: most symbols have only these.
    if c >= b'a' {
        c <= b'z'
    } else {
        matches!(c, b'0'..=b'9' | b'A'..=b'Z' | b'_')
    }
}

// How many letters and digits stand at the front.
fn run_length(text: &[u8]) -> usize
    ensures value { result ≡ prefix_len is_word_character text.now }
    ensures within { result ≤ length text.now }
{
    text.iter().take_while(|c| is_word_byte(**c)).count()
}

// How many blanks stand at the front.
fn blanks_length(text: &[u8]) -> usize
    ensures value { result ≡ prefix_len is_blank text.now }
    ensures within { result ≤ length text.now }
{
    text.iter()
        .take_while(|c| matches!(**c, b' ' | b'\t'))
        .count()
}

// How many characters of a text stand behind its first quote mark, up to the mark that closes it. Two marks are one
// that is in the text.
fn quoted_length(characters: &[u8]) -> usize
    ensures value { result ≡ text_length characters.now }
    ensures within { result ≤ length characters.now }
{
    let mut at = 0;
    while at < characters.len() {
        if characters[at] != b'\'' {
            at += 1;
        } else if at + 1 < characters.len() && characters[at + 1] == b'\'' {
            at += 2;
        } else {
            return at + 1;
        }
    }
    at
}

// Whether two characters are one operator.
fn is_long_operator(c: u8, d: u8) -> bool
    ensures { result ≡ is_operator c d }
{
    matches!((c, d), (b'<', b'=' | b'>') | (b'>', b'='))
}

// How many characters of an operator stand behind its first.
fn operator_rest(c: u8, behind: &[u8]) -> usize
    ensures value { result ≡ operator_length c behind.now }
    ensures within { result ≤ length behind.now }
{
    match behind.split_first() {
        Some((d, _)) if is_long_operator(c, *d) => 1,
        _ => 0,
    }
}

// How many characters of a symbol stand behind its first.
fn symbol_rest(c: u8, behind: &[u8]) -> usize
    ensures value { result ≡ length_behind c behind.now }
    ensures within { result ≤ length behind.now }
{
    if c == b'-' || is_word_byte(c) {
        run_length(behind)
    } else if c == b'\'' {
        quoted_length(behind)
    } else {
        operator_rest(c, behind)
    }
}

// How many characters the first symbol has, of a text with no blank at its front.
fn first_length(text: &[u8]) -> usize
    ensures value { result ≡ lexeme_length text.now }
    ensures within { result ≤ length text.now }
{
    match text.split_first() {
        None => 0,
        Some((c, behind)) => 1 + symbol_rest(*c, behind),
    }
}

/// The characters of the first symbol, and the line behind them.
pub fn split_lexeme(line: &[u8]) -> (&[u8], &[u8])
    ensures lexeme { result.0.now ≡ lexeme line.now }
    ensures after { result.1.now ≡ after_lexeme line.now }
{
    let (_, text) = line.split_at(blanks_length(line));
    text.split_at(first_length(text))
}
