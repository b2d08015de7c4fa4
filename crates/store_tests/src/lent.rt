// What a table leaves in the lent words, read back by a second table over them.
use model::{Content, Version};
use std::process::Abort;
use store::Archive;
use table::{Shape, Table, append_lent};

const SHAPE: Shape = Shape {
    granules: 1,
    depth: 2,
};

// Appends a version with stamp 6 to a table of one granule, which has one with stamp 5, and looks
// at the words and at a second table over them.
fn appended(rt: &impl Abort, content: Content, expected: [u64; 4]) {
    let version = Version { stamp: 6, content };
    let mut words = [5, 7, 0, 0];
    assert_eq!(rt; append_lent(&mut words, SHAPE, 0, version), Ok(()));
    assert_eq!(rt; words, expected);
    let table = Table::new(&mut words, SHAPE);
    assert_eq!(rt; table.version(0, 1), Ok(version));
}

#[test]
fn entry(rt: HostRuntime) {
    appended(&rt, Content::Entry(9), [5, 7, 6, 9]);
}

#[test]
fn absence(rt: HostRuntime) {
    appended(&rt, Content::Absence, [5, 7, 0x8000_0000_0000_0006, 0]);
}
