//! The largest level: 96 doors that all list each other.
use lists::ListTable;
use std::array;

// Every door but one, in rising order.
fn others(door: u8) -> [u8; 95] {
    array::from_fn(|k| if k < usize::from(door) {
        k as u8
    } else {
        k as u8 + 1
    })
}

// 96 doors that all list each other, the lower numbers first.
pub(crate) fn everybody() -> ListTable {
    let mut table = ListTable::empty(96);
    for door in 0..96u8 {
        let list = others(door);
        table.put(door, &list);
    }
    table
}
