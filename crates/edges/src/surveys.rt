//! Surveys that are refused, and some that are ranked.
use faults::Place;
use sources::{GroundSource, Source};
use survey::Record;

const ARCH: Record = Record {
    east: 0,
    north: 0,
    kind: 0,
};

// The answer of the survey check as two numbers: 0 and the doors, or the refusal and its place.
// stays: tests keep their values, which are numbers of refusals; 255 stands for the place of a file's fault, which no survey has
fn verdict(records: &[Record]) -> (u8, u32) {
    match survey::check(records) {
        Ok(doors) => (0, u32::from(doors)),
        Err(fault) => match fault.place {
            Place::At(at) => (u8::from(fault.refusal), at),
            Place::Byte { .. } => (255, 0),
        },
    }
}

#[test]
fn too_many_comes_before_bad_kinds(rt: HostRuntime) {
    let mut records = [ARCH; 97];
    assert_eq!(rt; verdict(&records[..0]), (0, 0));
    assert_eq!(rt; verdict(&records[..96]), (0, 96));
    assert_eq!(rt; verdict(&records), (14, 0));
    records[95].kind = 4;
    assert_eq!(rt; verdict(&records), (14, 0));
    assert_eq!(rt; verdict(&records[..96]), (13, 95));
    records[7].kind = 255;
    records[6].kind = 3;
    assert_eq!(rt; verdict(&records[..96]), (13, 7));
}

#[test]
fn tiles_are_rounded_down(rt: HostRuntime) {
    let records = [
        ARCH,
        Record {
            east: 48,
            north: 0,
            kind: 0,
        },
        Record {
            east: -33,
            north: 0,
            kind: 0,
        },
    ];
    let source = GroundSource::new(&records);
    assert_eq!(rt; source.place(0, 1), Some(0));
    assert_eq!(rt; source.place(0, 2), Some(1));
    assert_eq!(rt; source.length(1), 2);
    assert_eq!(rt; source.place(3, 0), None);
    assert_eq!(rt;
        GroundSource::new(&[Record {
            east: 0,
            north: 0,
            kind: 4,
        }])
        .count(),
        0
    );
}
