use crate::rows::expect_none;
use crate::texts::is_written;
use lock_word::{Lock, Memory, Split, Word, decode, encode, lock_of, with_lock};

const GREATEST: Lock = Lock::Fat { monitor: 8_388_607 };

/// Whether the word shows this lock and low byte, and they are written so.
fn is_word(split: Split, bits: u32, lock: Lock, low: u8) -> bool {
    decode(split, Word(bits)) == Some((lock, low))
        && encode(split, lock, low) == Word(bits)
        && with_lock(split, Word(u32::from(low)), lock) == Word(bits)
}

/// The first of these rows that is no word.
fn first_other(split: Split, rows: &[(u32, Lock, u8)]) -> Option<usize> {
    for (row, &(bits, lock, low)) in rows.iter().enumerate() {
        if !is_word(split, bits, lock, low) {
            return Some(row);
        }
    }
    None
}

const WIDE: [(u32, Lock, u8); 7] = [
    (0x7FFF_0000, thin!(32_767, 0), 0),
    (0xFFFF_FF00, GREATEST, 0),
    (0x0000_0000, Lock::Free, 0),
    (0x0001_01A5, thin!(1, 1), 0xA5),
    (0x0001_FFA5, thin!(1, 255), 0xA5),
    (0x8000_00A5, Lock::Fat { monitor: 0 }, 0xA5),
    (0x0000_00A5, Lock::Free, 0xA5),
];

const DEEP: [(u32, Lock, u8); 6] = [
    (0x0010_00A5, thin!(1, 0), 0xA5),
    (0x001F_FFA5, thin!(1, 4_095), 0xA5),
    (0x7FFF_FF00, thin!(2_047, 4_095), 0),
    (0x7FF0_0000, thin!(2_047, 0), 0),
    (0xFFFF_FF00, GREATEST, 0),
    (0x0000_00A5, Lock::Free, 0xA5),
];

const TABLES: [(&str, Split, &[(u32, Lock, u8)]); 2] = [
    ("words and their locks", Split::Wide, &WIDE),
    ("deep words and their locks", Split::Deep, &DEEP),
];

#[test]
fn words_and_their_locks(rt: HostRuntime) {
    for (name, split, rows) in TABLES {
        expect_none(&rt, name, Ok(first_other(split, rows)));
    }
    let word = with_lock(Split::Wide, Word(0x0001_01A5), Lock::Fat { monitor: 9 });
    assert!(rt; word == Word(0x8000_09A5));
    assert!(rt; lock_of(Split::Wide, Word(0x8000_09A5)) == Lock::Fat { monitor: 9 });
}

#[test]
fn index_0_with_a_count_is_no_word(rt: HostRuntime) {
    for bits in [0x0000_0100, 0x0000_FFFF, 0x0000_01A5] {
        assert!(rt; decode(Split::Wide, Word(bits)) == None, "{bits}");
    }
    assert!(rt; decode(Split::Deep, Word(0x0001_0000)) == None);
}

#[test]
fn texts(rt: HostRuntime) {
    assert!(rt; is_written(rt.alloc(), &Word(0x0001_00A5), "000100A5"));
    assert!(rt; is_written(rt.alloc(), &Memory, "out of memory"));
}
