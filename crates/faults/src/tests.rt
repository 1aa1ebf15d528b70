//! Refusals as words and numbers.
use crate::{Fault, Layer, Place, Refusal, UnknownRefusal};
use std::test::Fail;

#[test]
fn faults_are_written(rt: HostRuntime) -> Result<(), Fail> {
    let heap = rt.alloc();
    let whole = Layer::Ground.refuses(Refusal::BadKind, Place::At(7));
    assert_eq!(rt;
        format!(in heap; "{whole}")?.as_str(),
        "refused 13 ground 7"
    );
    let byte = Place::Byte {
        block: 2,
        byte: 510,
    };
    let within = Fault {
        refusal: Refusal::BlockCheck,
        layer: Layer::File,
        place: byte,
    };
    assert_eq!(rt;
        format!(in heap; "{within}")?.as_str(),
        "refused 11 file 2 510"
    );
    assert_eq!(rt;
        format!(in heap; "{} {} {}", Layer::Level, Layer::Linker, Layer::Console)?.as_str(),
        "level linker console"
    );
    assert_eq!(rt;
        format!(in heap; "{}", UnknownRefusal(15))?.as_str(),
        "no refusal has the number 15"
    );
    Ok(())
}

#[test]
fn numbers_are_read_back(rt: HostRuntime) {
    assert_eq!(rt; Refusal::try_from(18), Ok(Refusal::UnreadLine));
    assert_eq!(rt; Refusal::try_from(15), Err(UnknownRefusal(15)));
    assert_eq!(rt; u8::from(Refusal::NotHolder), 16);
}
