// Words that the check refuses: each kind of damage, with its number and place. Each kind is a test
// of its own, since its name says which it is.
use crate::words::zeros;
use table::{Shape, TableFault, check_words};

fn check(words: &[u64], granules: usize, depth: usize) -> Result<(), TableFault> {
    check_words(words, Shape { granules, depth })
}

fn wrong(word: usize) -> Result<(), TableFault> {
    Err(TableFault::Pair { word })
}

fn misshapen() -> Result<(), TableFault> {
    Err(TableFault::Shape)
}

#[test]
fn numbers(rt: HostRuntime) {
    assert_eq!(rt; TableFault::Pair { word: 0 }.number(), 25);
    assert_eq!(rt; TableFault::Shape.number(), 26);
}

#[test]
fn bit_62(rt: HostRuntime) {
    assert_eq!(rt; check(&[1, 7, 0x4000_0000_0000_0002, 7], 1, 2), wrong(2));
}

#[test]
fn absence_with_code(rt: HostRuntime) {
    assert_eq!(rt; check(&[0x8000_0000_0000_0001, 7], 1, 1), wrong(0));
}

#[test]
fn stamp_0(rt: HostRuntime) {
    assert_eq!(rt; check(&[0, 7], 1, 1), wrong(0));
    assert_eq!(rt; check(&[0x8000_0000_0000_0000, 0], 1, 1), wrong(0));
}

// The second granule's last stamp counts, and not the first one's.
#[test]
fn stamp_not_above(rt: HostRuntime) {
    assert_eq!(rt; check(&[5, 7, 0, 0, 3, 7, 3, 8], 2, 2), wrong(6));
}

#[test]
fn used_after_unused(rt: HostRuntime) {
    assert_eq!(rt; check(&[0, 0, 1, 7], 1, 2), wrong(2));
}

#[test]
fn shapes(rt: HostRuntime) {
    assert_eq!(rt; check(&zeros::<8194>(), 4097, 1), misshapen());
    assert_eq!(rt; check(&zeros::<8194>(), 1, 0), misshapen());
    assert_eq!(rt; check(&zeros::<8194>(), 1, 65), misshapen());
    assert_eq!(rt; check(&[0; 3], 1, 2), misshapen());
    assert_eq!(rt; check(&zeros::<8194>(), 64, 64), Ok(()));
}
