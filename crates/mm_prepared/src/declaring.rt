//! Which lines may change the names and columns of tables.
ghost use Rattle.std.specs.Prelude.{◌≡◌, IsTrue};
ghost use Rattle.plain_streams.specs.Requests.{without_return};
ghost use Rattle.mm_prepared.specs.Declaring.{IsOfTables, behind_blanks};

// The line from its first character on that is no blank.
fn trim_blanks(line: &[u8]) -> &[u8]
    ensures { result.now ≡ behind_blanks line.now }
{
    for (i, c) in line.iter().enumerate() {
        if *c != b' ' && *c != b'\t' {
            return &line[i..];
        }
    }
    &[]
}

/// Whether a line begins as those do that declare or drop a table. Any other leaves the names and columns of tables.
pub fn may_declare(line: &[u8]) -> bool
    ensures { IsOfTables (without_return line.now) → IsTrue result }
{
    let text = trim_blanks(line);
    text.starts_with(b"table") || text.starts_with(b"drop")
}
