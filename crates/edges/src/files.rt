//! Level files, whole and damaged.
use codec::BLOCK;
use faults::Place;
use lists::ListTable;
use sources::{FileSource, Source, bake};
use std::alloc::Global;
use std::test::Fail;

// The answer of the check as three numbers: 0 and the doors, or the refusal, block and byte.
// stays: tests keep their values, which are numbers of refusals
fn verdict(bytes: &[u8]) -> (u8, u32, u16) {
    match codec::check(bytes) {
        Ok(doors) => (0, u32::from(doors), 0),
        Err(fault) => {
            let number = u8::from(fault.refusal);
            match fault.place {
                Place::At(at) => (number, at, 0),
                Place::Byte { block, byte } => (number, u32::from(block), byte),
            }
        }
    }
}

// Three doors: the first lists the two others, the second the third, the third nobody.
fn three_doors() -> ListTable {
    let mut table = ListTable::empty(3);
    table.put(0, &[1, 2]);
    table.put(1, &[2]);
    table
}

// Sets one byte, and the check of its block where `sealed`.
fn spoil(bytes: &mut [u8], at: u16, value: u8, sealed: bool) {
    let at = usize::from(at);
    if let Some(byte) = bytes.get_mut(at) {
        *byte = value;
    }
    let start = at / BLOCK * BLOCK;
    if sealed && start + BLOCK <= bytes.len() {
        let check = codec::block_check(&bytes[start..start + BLOCK]).to_le_bytes();
        bytes[start + 510..start + BLOCK].copy_from_slice(&check);
    }
}

// One damage to the file of three doors, and the answer of the check.
struct Damage {
    size: usize,
    at: u16,
    value: u8,
    // stays: no plainer: a yes or no of the case, whether the block's check is made anew
    sealed: bool,
    answer: (u8, u32, u16),
}

const DAMAGES: [Damage; 27] = [
    Damage {
        size: 2048,
        at: 0,
        value: 0x44,
        sealed: true,
        answer: (0, 3, 0),
    },
    Damage {
        size: 0,
        at: 0,
        value: 0,
        sealed: false,
        answer: (7, 0, 0),
    },
    Damage {
        size: 511,
        at: 0,
        value: 0,
        sealed: false,
        answer: (7, 0, 0),
    },
    Damage {
        size: 512,
        at: 0,
        value: 0x44,
        sealed: true,
        answer: (7, 0, 0),
    },
    Damage {
        size: 512,
        at: 5,
        value: 0,
        sealed: true,
        answer: (0, 0, 0),
    },
    Damage {
        size: 513,
        at: 5,
        value: 0,
        sealed: true,
        answer: (7, 0, 0),
    },
    Damage {
        size: 2047,
        at: 0,
        value: 0x44,
        sealed: true,
        answer: (7, 0, 0),
    },
    Damage {
        size: 512,
        at: 0,
        value: 0x45,
        sealed: true,
        answer: (10, 0, 0),
    },
    Damage {
        size: 2048,
        at: 3,
        value: 0x53,
        sealed: true,
        answer: (10, 0, 3),
    },
    Damage {
        size: 2048,
        at: 4,
        value: 2,
        sealed: true,
        answer: (10, 0, 4),
    },
    Damage {
        size: 2048,
        at: 5,
        value: 96,
        sealed: true,
        answer: (7, 0, 0),
    },
    Damage {
        size: 2048,
        at: 5,
        value: 97,
        sealed: true,
        answer: (14, 0, 5),
    },
    Damage {
        size: 2048,
        at: 6,
        value: 1,
        sealed: true,
        answer: (10, 0, 6),
    },
    Damage {
        size: 2048,
        at: 509,
        value: 1,
        sealed: true,
        answer: (10, 0, 509),
    },
    Damage {
        size: 2048,
        at: 509,
        value: 1,
        sealed: false,
        answer: (11, 0, 510),
    },
    Damage {
        size: 2048,
        at: 511,
        value: 0xFF,
        sealed: false,
        answer: (11, 0, 510),
    },
    Damage {
        size: 2048,
        at: 512,
        value: 0,
        sealed: true,
        answer: (10, 1, 0),
    },
    Damage {
        size: 2048,
        at: 513,
        value: 1,
        sealed: true,
        answer: (10, 1, 1),
    },
    Damage {
        size: 2048,
        at: 514,
        value: 3,
        sealed: true,
        answer: (12, 1, 2),
    },
    Damage {
        size: 2048,
        at: 514,
        value: 1,
        sealed: true,
        answer: (10, 1, 4),
    },
    Damage {
        size: 2048,
        at: 515,
        value: 0,
        sealed: true,
        answer: (12, 1, 3),
    },
    Damage {
        size: 2048,
        at: 515,
        value: 3,
        sealed: true,
        answer: (12, 1, 3),
    },
    Damage {
        size: 2048,
        at: 516,
        value: 1,
        sealed: true,
        answer: (12, 1, 4),
    },
    Damage {
        size: 2048,
        at: 517,
        value: 1,
        sealed: true,
        answer: (10, 1, 5),
    },
    Damage {
        size: 2048,
        at: 1021,
        value: 1,
        sealed: true,
        answer: (10, 1, 509),
    },
    Damage {
        size: 2048,
        at: 1021,
        value: 1,
        sealed: false,
        answer: (11, 1, 510),
    },
    Damage {
        size: 2048,
        at: 2047,
        value: 1,
        sealed: false,
        answer: (11, 3, 510),
    },
];

// The answer of the check to a damaged file.
fn answer(case: &Damage) -> (u8, u32, u16) {
    let mut bytes = [0u8; 2048];
    let _ = bake(&three_doors(), &mut bytes);
    spoil(&mut bytes, case.at, case.value, case.sealed);
    verdict(&bytes[..case.size.min(2048)])
}

#[test]
fn every_damage_is_named(rt: HostRuntime) {
    for case in &DAMAGES {
        assert_eq!(rt; answer(case), case.answer);
    }
}

// The answer of the check to a file of `count` doors with empty lists.
fn empty_lists(heap: Global, count: u8) -> Result<(u8, u32, u16), Fail> {
    let table = ListTable::empty(count);
    let mut bytes = vec![in heap; 0u8; BLOCK * (usize::from(table.count()) + 1)]?;
    let _ = bake(&table, bytes.as_mut_slice());
    Ok(verdict(bytes.as_slice()))
}

#[test]
fn the_most_doors(rt: HostRuntime) -> Result<(), Fail> {
    assert_eq!(rt; empty_lists(rt.alloc(), 96)?, (0, 96, 0));
    assert_eq!(rt; empty_lists(rt.alloc(), 97)?, (0, 96, 0));
    Ok(())
}

#[test]
fn a_file_source_has_the_lists(rt: HostRuntime) {
    let mut bytes = [0u8; 2048];
    assert_eq!(rt; bake(&three_doors(), &mut bytes), Ok(4));
    let source = FileSource::new(&bytes);
    assert_eq!(rt; source.count(), 3);
    assert_eq!(rt; source.length(0), 2);
    assert_eq!(rt; source.place(0, 2), Some(1));
    assert_eq!(rt; source.place(2, 0), None);
    assert_eq!(rt; FileSource::new(&bytes[0..511]).count(), 0);
}
