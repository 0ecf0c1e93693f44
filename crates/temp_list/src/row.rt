//! What a list keeps of a row.

use part_raw::TupleRef;
use smallvec::SmallVec;

/// A reference for each source. Four of them lie in the list's own block.
pub type ListedRow = SmallVec<TupleRef, 4>;
