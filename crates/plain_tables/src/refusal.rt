//! The numbered refusals.

ghost use Rattle.std.specs.Prelude.{◌≡◌};

use crate::NoMemory;

/// Why a line was refused. After a refusal every table, index and row is as before.
///
/// Each number has one variant. Those that may come out of a block of records carry the number of the
/// record at fault, counted from 1, the header not counted.
#[derive(Clone, Copy, Debug, PartialEq, Eq)]
pub enum Refusal {
    /// 10: the line passes 8,192 bytes.
    LineTooLong,
    /// 11: the line isn't UTF-8.
    NotUtf8,
    /// 12: the block of a load passes its limit.
    BlockTooLong,
    /// 13: the stream ends inside the block of a load.
    BlockCutShort,
    /// 20: the line spells no command.
    NotACommand,
    /// 30: a table that is named isn't there.
    NoSuchTable,
    /// 31: a table of that name is there already.
    TableExists,
    /// 32: a column that is named isn't in a table of the command.
    NoSuchColumn,
    /// 33: a column is named twice.
    ColumnNamedTwice,
    /// 34: a table is joined with itself.
    TableNamedTwice,
    /// 35: a value isn't of its column's type.
    WrongType,
    /// 36: the key of a row cannot be set.
    KeyCannotBeSet,
    /// 37: too many columns, tables, conditions or items.
    TooMany,
    /// 38: no such index is declared.
    NoSuchIndex,
    /// 39: the index is declared already.
    IndexExists,
    /// 40: another table has a column that refers to the table.
    TableIsReferenced,
    /// 41: a row with that key is there already.
    KeyExists { record: Option<u64> },
    /// 42: a reference names no row.
    NoReferencedRow { record: Option<u64> },
    /// 43: the table has as many rows as the limit allows.
    TableFull { record: Option<u64> },
    /// 44: a row that is to go is referenced.
    RowIsReferenced,
    /// 45: a row has one value for each column.
    WrongNumberOfValues,
    /// 46: a text is past 1,024 bytes.
    TextTooLong,
    /// 61: the first record of a block isn't the column names in order.
    BadHeader,
    /// 62: a record of a block isn't one of the table.
    BadRecord { record: u64 },
    /// 64: the block of a dump passes its limit.
    DumpTooLong,
    /// 90: a growth was refused by the allocator.
    NoMemory,
}

impl From<NoMemory> for Refusal {
    ghost use Rattle.plain_tables.specs.declared.refusal.Refusal.TheVariants as refusal;

    ghost from_gives = { λ _ r. r ≡ refusal.NoMemory };

    fn from(_: NoMemory) -> Refusal {
        Refusal::NoMemory
    }
}

impl Refusal {
    ghost use Rattle.plain_tables.specs.Refusals.{number_of, text_of, record_of};

    /// The number that the answer begins with.
    pub fn number(&self) -> u8
        ensures { result ≡ number_of self.now }
    {
        match self {
            Refusal::LineTooLong => 10,
            Refusal::NotUtf8 => 11,
            Refusal::BlockTooLong => 12,
            Refusal::BlockCutShort => 13,
            Refusal::NotACommand => 20,
            Refusal::NoSuchTable => 30,
            Refusal::TableExists => 31,
            Refusal::NoSuchColumn => 32,
            Refusal::ColumnNamedTwice => 33,
            Refusal::TableNamedTwice => 34,
            Refusal::WrongType => 35,
            Refusal::KeyCannotBeSet => 36,
            Refusal::TooMany => 37,
            Refusal::NoSuchIndex => 38,
            Refusal::IndexExists => 39,
            Refusal::TableIsReferenced => 40,
            Refusal::KeyExists { .. } => 41,
            Refusal::NoReferencedRow { .. } => 42,
            Refusal::TableFull { .. } => 43,
            Refusal::RowIsReferenced => 44,
            Refusal::WrongNumberOfValues => 45,
            Refusal::TextTooLong => 46,
            Refusal::BadHeader => 61,
            Refusal::BadRecord { .. } => 62,
            Refusal::DumpTooLong => 64,
            Refusal::NoMemory => 90,
        }
    }

    /// The words after the number. The number of a record follows them in the answer.
    pub fn text(&self) -> &'static str
        ensures { result.now ≡ text_of self.now }
    {
        match self {
            Refusal::LineTooLong => "line too long",
            Refusal::NotUtf8 => "not UTF-8",
            Refusal::BlockTooLong => "block too long",
            Refusal::BlockCutShort => "block cut short",
            Refusal::NotACommand => "not a command",
            Refusal::NoSuchTable => "no such table",
            Refusal::TableExists => "table exists",
            Refusal::NoSuchColumn => "no such column",
            Refusal::ColumnNamedTwice => "column named twice",
            Refusal::TableNamedTwice => "table named twice",
            Refusal::WrongType => "wrong type",
            Refusal::KeyCannotBeSet => "key cannot be set",
            Refusal::TooMany => "too many",
            Refusal::NoSuchIndex => "no such index",
            Refusal::IndexExists => "index exists",
            Refusal::TableIsReferenced => "table is referenced",
            Refusal::KeyExists { .. } => "key exists",
            Refusal::NoReferencedRow { .. } => "no referenced row",
            Refusal::TableFull { .. } => "table full",
            Refusal::RowIsReferenced => "row is referenced",
            Refusal::WrongNumberOfValues => "wrong number of values",
            Refusal::TextTooLong => "text too long",
            Refusal::BadHeader => "bad header",
            Refusal::BadRecord { .. } => "bad record",
            Refusal::DumpTooLong => "dump too long",
            Refusal::NoMemory => "no memory",
        }
    }

    /// The number of the record at fault, where the refusal is of a record in a block.
    pub fn record_no(&self) -> Option<u64>
        ensures { result ≡ record_of self.now }
    {
        match self {
            Refusal::KeyExists { record }
            | Refusal::NoReferencedRow { record }
            | Refusal::TableFull { record } => *record,
            Refusal::BadRecord { record } => Some(*record),
            _ => None,
        }
    }
}
