//! A whole block.

ghost use Rattle.std.specs.Prelude.{◌≡◌, ◌<◌, length, IfOk};
ghost use Rattle.std.specs.List.{All};
ghost use Rattle.plain_tables.specs.Csv.{block_text};

use crate::RecordWriter;
use plain_tables::{NoMemory, Sequence, Text, Value};
use std::alloc::Global;

/// The names as a record, and then each row as a record.
#[tactic(auto, using(crate::proofs::Blocks::block_begun, crate::proofs::Blocks::block_more, crate::proofs::Blocks::block_done))]
pub fn block_of(
    alloc: Global,
    names: &[Text],
    rows: &[Sequence<Value>],
) -> Result<Vec<u8>, NoMemory>
    requires named { 0 < length names.now }
    requires fitting { All (λ row. length row ≡ length names.now) rows.now }
    ensures { IfOk result (λ block. block.items ≡ block_text names.now rows.now) }
{
    let mut records = RecordWriter::new(alloc, Vec::new(alloc));
    records.push_names(names)?;
    for row in rows {
        records.push_record(row.as_slice())?;
    }
    records.finish()
}
