//! Hashes of values.

use plain_tables::{NoMemory, StoredValue, Text, Value, hash_of, hash_of_sought};
use std::alloc::Global;

// Integers, and the FNV-1a hashes of 64 bits of the byte 0 and their eight bytes, as a program in another language has them.
const INTEGERS: &[(i64, u64)] = &[
    (1, 16574514615351781388),
    (-1, 8811690462992864311),
    (0x0001_0203_0405_0607, 2440841100319050223),
    (i64::MIN, 7539304728655239487),
];

// Texts, and those of the byte 1 and their bytes.
const TEXTS: &[(&str, u64)] = &[
    ("", 12638152016183539244),
    ("a", 589763776587810007),
    ("é", 15220724286103435740),
    ("foobar", 4699563385904585153),
];

// The hash of a value that is looked for, where it is that of the value in a row.
fn hash_of_both(value: Value) -> Option<u64> {
    let hash = hash_of_sought(&value.sought());
    if hash_of(&StoredValue::pack(value)) == hash {
        Some(hash)
    } else {
        None
    }
}

fn hash_of_text(alloc: Global, word: &str) -> Result<Option<u64>, NoMemory> {
    Ok(hash_of_both(Value::Text(Text::from_str(alloc, word)?)))
}

#[test]
fn hashes_are_those_of_fnv_1a(rt: HostRuntime) {
    assert!(rt; hash_of_both(Value::Null) == Some(12638155314718423877));
    for (number, hash) in INTEGERS {
        assert!(rt;
            hash_of_both(Value::Int(*number)) == Some(*hash),
            "at {number}"
        );
    }
    for (word, hash) in TEXTS {
        assert!(rt;
            hash_of_text(rt.alloc(), *word) == Ok(Some(*hash)),
            "at {word}"
        );
    }
}
