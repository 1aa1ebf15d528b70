//! Lines that are read and written.
use crate::{digits, linking_line, refused_file_line, refused_line};
use faults::{Layer, Place, Refusal};
use std::test::Fail;

#[test]
fn digits_are_read(rt: HostRuntime) -> Result<(), Fail> {
    let heap = rt.alloc();
    let read = digits(heap, b"0190")?;
    assert_eq!(rt;
        read.as_ref().map(|numbers| numbers.as_slice()),
        Some([0, 1, 9, 0].as_slice())
    );
    assert!(rt; digits(heap, b"01x0")?.is_none());
    Ok(())
}

#[test]
fn lines_are_written(rt: HostRuntime) -> Result<(), Fail> {
    let heap = rt.alloc();
    let standing = [true, true, false, true, true];
    let partners = [3, 65535, 65535, 0, 65535];
    assert_eq!(rt;
        linking_line(heap, "", &standing, &partners)?.as_str(),
        "0-3 1 4"
    );
    assert_eq!(rt;
        linking_line(heap, "2 proposals:", &standing, &partners[..1])?.as_str(),
        "2 proposals: 0-3"
    );
    assert_eq!(rt; refused_line(heap, Refusal::DoorGone)?.as_str(), "no 3");
    let fault = Layer::File.refuses(
        Refusal::BlockCheck,
        Place::Byte {
            block: 2,
            byte: 510,
        },
    );
    assert_eq!(rt; refused_file_line(heap, fault)?.as_str(), "file 11 2 510");
    Ok(())
}
