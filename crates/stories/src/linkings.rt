//! One-way linkings over piles of sources.
use crate::everybody::everybody;
use linker::{link, one_way_link};
use lists::ListTable;
use sources::{FileSource, GroundSource, Reach, Source, bake};
use std::alloc::Global;
use std::array;
use std::test::Fail;
use survey::Record;

// The proposals of a one-way linking of six doors and its output, or the refusal's number and an output as it was.
// stays: tests keep their values: one number beside the output
fn six<S: Source>(source: &S, sides: [u8; 6]) -> (u16, [u16; 6]) {
    let mut out = [7u16; 6];
    let mut memory = [0u16; 156];
    match one_way_link(source, &sides, &mut out, &mut memory) {
        Ok(count) => (count, out),
        Err(fault) => (u16::from(fault.refusal.number()) + 1000, out),
    }
}

// Three exits and three entrances.
fn six_doors() -> ListTable {
    let mut table = ListTable::empty(6);
    table.put(0, &[3, 5, 4]);
    table.put(1, &[5, 3, 4]);
    table.put(2, &[5, 3, 4]);
    table.put(3, &[2, 0, 1]);
    table.put(4, &[0, 1, 2]);
    table.put(5, &[1, 2, 0]);
    table
}

// stays: a rule of the project: the output is lent memory, in which 65535 is nobody
const NONE: u16 = 65535;

// Doors 1 and 5 are linked, the others are not.
const ONE_PAIR: [u16; 6] = [NONE, 5, NONE, NONE, NONE, 1];

#[test]
fn six_doors_are_linked(rt: HostRuntime) {
    let doors = six_doors();
    assert_eq!(rt; six(&doors, [0, 0, 0, 1, 1, 1]), (6, [4, 5, 3, 2, 0, 1]));
    assert_eq!(rt; six(&doors, [0; 6]), (0, [NONE; 6]), "all exits");
    assert_eq!(rt; six(&doors, [1; 6]), (0, [NONE; 6]), "all entrances");
    assert_eq!(rt; six(&doors, [0, 0, 0, 1, 2, 3]), (1008, [7; 6]));
    assert_eq!(rt; six(&ListTable::empty(5), [0; 6]), (1007, [7; 6]));
}

#[test]
fn linkings_over_layers(rt: HostRuntime) {
    let mut bytes = [0u8; 3584];
    let _ = bake(&six_doors(), &mut bytes);
    let file = Reach {
        below: Reach {
            below: FileSource::new(&bytes),
            reach: 2,
        },
        reach: 1,
    };
    assert_eq!(rt;
        six(&file, [0, 0, 0, 1, 1, 1]),
        (1, ONE_PAIR),
        "only 1 and 5 list each other first"
    );
    let arch = Record {
        east: 0,
        north: 0,
        kind: 0,
    };
    let ground = Reach {
        below: GroundSource::new(&[arch; 6]),
        reach: 3,
    };
    assert_eq!(rt;
        six(&ground, [1, 0, 0, 1, 1, 0]),
        (3, [1, 0, 3, 2, NONE, NONE]),
        "everybody lists the lowest numbers"
    );
}

// Even doors are exits, odd ones entrances.
fn alternate() -> [u8; 96] {
    array::from_fn(|door| (door % 2) as u8)
}

// The proposals among 96 doors that all list each other in rising order.
fn most_doors(heap: Global) -> Result<Option<u16>, Fail> {
    let sides = alternate();
    let mut out = [0u16; 96];
    let mut memory = vec![in heap; 0u16; 28416]?;
    Ok(one_way_link(&everybody(), &sides, &mut out, memory.as_mut_slice()).ok())
}

// The linking of six doors, or the refusal's number and an output as it was.
// stays: tests keep their values: one number beside the output
fn linked<S: Source>(source: &S) -> (u16, [u16; 6]) {
    let mut out = [7u16; 6];
    let mut memory = [0u16; 156];
    match link(source, &mut out, &mut memory) {
        Ok(()) => (0, out),
        Err(fault) => (u16::from(fault.refusal.number()), out),
    }
}

#[test]
fn all_doors_are_linked(rt: HostRuntime) {
    assert_eq!(rt; linked(&six_doors()), (0, [4, 5, 3, 2, 0, 1]));
    assert_eq!(rt;
        linked(&Reach {
            below: six_doors(),
            reach: 1,
        }),
        (0, ONE_PAIR)
    );
    let mut ring = ListTable::empty(6);
    ring.put(0, &[1, 2]);
    ring.put(1, &[2, 0]);
    ring.put(2, &[0, 1]);
    assert_eq!(rt; linked(&ring), (9, [7; 6]));
    assert_eq!(rt; linked(&ListTable::empty(5)), (7, [7; 6]));
}

#[test]
fn ninety_six_doors(rt: HostRuntime) -> Result<(), Fail> {
    assert_eq!(rt; most_doors(rt.alloc())?, Some(1176));
    let mut none = [0u16; 0];
    assert_eq!(rt;
        one_way_link(&ListTable::empty(0), &[], &mut none, &mut [0u16; 0]).is_ok(),
        true
    );
    Ok(())
}
