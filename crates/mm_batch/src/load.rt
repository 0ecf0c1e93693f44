//! A load as a request: the line that asks for a block, and the block.

ghost use Rattle.std.specs.Prelude.{◌≡◌, Some, IfOk, string_bytes};
ghost use Rattle.std.specs.Io.Chain.{chain_remaining};
ghost use Rattle.std.specs.Io.Cursor.{cursor_remaining};
ghost use Rattle.plain_streams.specs.Division.{request_bytes};
ghost use Rattle.plain_streams.specs.Dumps.{load_request as load_of};

use mm_lang::print_load;
use plain_tables::NoMemory;
use std::alloc::Global;
use std::io::{Chain, Cursor, Read};

/// The line of a load and behind it its block, to be read.
pub type LoadRequest = Chain<Cursor<String>, Cursor<Vec<u8>>>;

/// The request that loads a block into the table of that name, spelled in the one canonical way.
pub fn load_request(alloc: Global, table: &str, block: Vec<u8>) -> Result<LoadRequest, NoMemory>
    ensures { IfOk result (λ request.
        chain_remaining (cursor_remaining (λ s. Some (string_bytes s))) (cursor_remaining (λ v. Some v.items)) request
        ≡ Some (request_bytes (load_of table.now block.items))) }
{
    let mut line = String::new(alloc);
    print_load(&mut line, table, block.len() as u64)?;
    line.push('\n')?;
    Ok(Cursor::new(line).chain(Cursor::new(block)))
}
