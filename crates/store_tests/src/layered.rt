// Pairs, links and a pile of them.
use crate::append::append_and_read;
use crate::words::zeros;
use link::Link;
use model::{Content, Version};
use pair::Pair;
use store::{Archive, Store};
use table::{Shape, Table};

// So many granules of depth 1.
fn flat(granules: usize) -> Shape {
    Shape { granules, depth: 1 }
}

// How many granules a pair of tables shows, of depth 1 and with so many granules each.
fn shown(first: &mut [u64], n: usize, second: &mut [u64], m: usize) -> usize {
    let pair = Pair::new(Table::new(first, flat(n)), Table::new(second, flat(m)));
    pair.granules()
}

// With more than 4,096 granules together a pair shows the first half only.
#[test]
fn too_many(rt: HostRuntime) {
    let mut first = zeros::<8192>();
    let mut second = [0; 4];
    assert_eq!(rt; shown(&mut first, 4095, &mut second, 1), 4096);
    assert_eq!(rt; shown(&mut first, 4095, &mut second, 2), 4095);
}

#[test]
fn notices_reach_both_halves(rt: HostRuntime) {
    let mut first = [0; 2];
    let mut second = [0; 2];
    let first = Link::new(Table::new(&mut first, flat(1)));
    let second = Link::new(Table::new(&mut second, flat(1)));
    let mut pair = Pair::new(first, second);
    pair.notice(1);
    pair.notice(3);
    assert!(rt; !pair.within_reach(0));
    assert!(rt; !pair.within_reach(1));
    pair.notice(2);
    assert!(rt; pair.within_reach(0));
    assert!(rt; pair.within_reach(1));
}

#[test]
fn radios(rt: HostRuntime) {
    let mut words = [0; 2];
    let mut link = Link::new(Table::new(&mut words, flat(1)));
    assert!(rt; link.within_reach(0));
    link.notice(1);
    assert!(rt; link.within_reach(0));
    link.notice(3);
    assert!(rt; !link.within_reach(0));
    link.notice(4);
    assert!(rt; link.within_reach(0));
    assert!(rt; !link.within_reach(1));
}

// A pile of four layers; granule 2 is the second granule of the second table.
#[test]
fn pile(rt: HostRuntime) {
    let version = Version {
        stamp: 6,
        content: Content::Entry(9),
    };
    let (mut a, mut b, mut c) = ([0; 2], [0; 4], [0; 2]);
    let inner = Pair::new(Table::new(&mut a, flat(1)), Table::new(&mut b, flat(2)));
    let outer = Link::new(Table::new(&mut c, flat(1)));
    let mut pile = Pair::new(Link::new(inner), outer);
    assert_eq!(rt; pile.granules(), 4);
    assert_eq!(rt; append_and_read(&mut pile, 2, version), Ok(Some(version)));
    assert_eq!(rt; pile.versions(2), 1);
    assert_eq!(rt; pile.latest(), 6);
}
