//! The rows that a select found, to be shown page by page.

use temp_list::TempList;

/// The rows that a select shows, in their order, as references to rows of the tables that they were found in, and not as values. They can
/// be shown as long as these tables are as they were.
#[derive(Drop)]
pub struct FoundRows {
    pub(crate) list: TempList,
}

impl FoundRows {
    ghost use Rattle.std.specs.Prelude.{◌≡◌, length};

    /// How many rows were found.
    pub fn len(&self) -> usize
        ensures { result ≡ length self.now.list.rows }
    {
        self.list.len()
    }
}
