//! Stories of levels.
use crate::everybody::everybody;
use faults::Fault;
use level::{Level, claim_once, strike_once};
use lists::ListTable;
use sources::{FileSource, Reach, Source, bake};

// Four doors, each of which lists the three others.
fn four_doors() -> ListTable {
    let mut table = ListTable::empty(4);
    table.put(0, &[1, 2, 3]);
    table.put(1, &[2, 0, 3]);
    table.put(2, &[0, 1, 3]);
    table.put(3, &[0, 1, 2]);
    table
}

// 0 for a granted call, otherwise the number of its refusal.
// stays: tests keep their values, which are numbers of refusals
fn number(answer: Result<(), Fault>) -> u8 {
    match answer {
        Ok(()) => 0,
        Err(fault) => fault.refusal.number(),
    }
}

// Claims a door and gives the claim back by release: 0, or the number of the refusal.
fn claim_and_release(level: &mut Level, door: u8) -> u8 {
    number(claim_once(level, door))
}

// A claim on a laptop, a free at the desk, a claim and a strike by another: what the late strike with the old claim answers.
fn late_strike(level: &mut Level, door: u8) -> u8 {
    match level.claim(door) {
        Ok(old) => {
            let _ = level.free(door);
            let _ = strike_once(level, door);
            number(level.strike(old))
        }
        Err(fault) => fault.refusal.number(),
    }
}

// The same, but the other still holds the door when the old claim is shown: its answer, and that to the holder's strike.
fn strike_what_another_holds(level: &mut Level, door: u8) -> (u8, u8) {
    match level.claim(door) {
        Ok(old) => {
            let _ = level.free(door);
            match level.claim(door) {
                Ok(new) => (number(level.strike(old)), number(level.strike(new))),
                Err(fault) => (number(level.release(old)), fault.refusal.number()),
            }
        }
        Err(fault) => (fault.refusal.number(), 0),
    }
}

#[test]
fn a_struck_door_never_comes_back(rt: HostRuntime) {
    let mut level = Level::new(&four_doors());
    assert_eq!(rt; late_strike(&mut level, 2), 16);
    assert!(rt; level.is_struck(2));
    assert_eq!(rt; level.length(2), 0);
    assert_eq!(rt; level.place(0, 2), None);
    assert_eq!(rt; number(level.favour(0, 2)), 3);
    assert_eq!(rt; claim_and_release(&mut level, 2), 3);
    assert_eq!(rt; number(level.free(2)), 3);
    assert_eq!(rt; level.granted(), 2);
}

#[test]
fn an_old_claim_cannot_strike_what_another_holds(rt: HostRuntime) {
    let mut level = Level::new(&four_doors());
    assert_eq!(rt; strike_what_another_holds(&mut level, 1), (16, 0));
    assert!(rt; level.is_struck(1));
    assert_eq!(rt; claim_and_release(&mut level, 0), 0);
    assert_eq!(rt; claim_and_release(&mut level, 4), 1);
    assert_eq!(rt; number(level.forbid(3, 3)), 2);
    assert_eq!(rt; number(level.forbid(9, 1)), 1);
}

#[test]
fn sixty_four_favours_are_live(rt: HostRuntime) {
    let mut level = Level::new(&everybody());
    for other in 1..65 {
        assert_eq!(rt; number(level.favour(0, other)), 0);
    }
    assert_eq!(rt; number(level.favour(0, 70)), 6);
    assert_eq!(rt;
        number(level.favour(0, 1)),
        0,
        "a live favour needs no place"
    );
    assert_eq!(rt; number(strike_once(&mut level, 1)), 0);
    assert_eq!(rt;
        number(level.favour(0, 70)),
        0,
        "the place of a struck door's favour"
    );
    assert_eq!(rt; number(level.favour(0, 71)), 6);
    assert_eq!(rt; number(level.forbid(2, 0)), 0);
    assert_eq!(rt;
        number(level.favour(0, 71)),
        0,
        "the place of a forbidden pair's favour"
    );
    assert_eq!(rt; level.favours().len(), 64);
}

#[test]
fn sixty_four_pairs_are_live(rt: HostRuntime) {
    let mut level = Level::new(&everybody());
    for other in 1..65 {
        assert_eq!(rt; number(level.forbid(0, other)), 0);
    }
    assert_eq!(rt; number(level.forbid(0, 70)), 6);
    assert_eq!(rt; number(level.forbid(1, 0)), 0, "a live pair needs no place");
    assert_eq!(rt; number(strike_once(&mut level, 1)), 0);
    assert_eq!(rt;
        number(level.forbid(70, 0)),
        0,
        "the place of a struck door's pair"
    );
    assert_eq!(rt; level.forbidden().len(), 64);
}

#[test]
fn levels_pile_up(rt: HostRuntime) {
    let mut bytes = [0u8; 2560];
    let _ = bake(&four_doors(), &mut bytes);
    let mut level = Level::new(&Reach {
        below: FileSource::new(&bytes),
        reach: 2,
    });
    assert_eq!(rt; level.length(0), 2);
    assert_eq!(rt; level.place(0, 3), None);
    assert_eq!(rt; number(level.favour(0, 3)), 5);
    assert_eq!(rt; number(level.favour(0, 2)), 0);
    let above = Level::new(&level);
    assert_eq!(rt; above.place(0, 2), Some(0));
    assert_eq!(rt; Level::new(&ListTable::empty(0)).count(), 0);
}
