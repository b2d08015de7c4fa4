// The four faults of an append, with the layer where each arose and the granule as it counts it.
use link::Link;
use model::{Cause, Content, Fault, Version};
use pair::Pair;
use store::Store;
use table::{Shape, Table};

const ONE: Shape = Shape {
    granules: 1,
    depth: 1,
};

fn absence(stamp: u64) -> Version {
    Version {
        stamp,
        content: Content::Absence,
    }
}

fn refused(cause: Cause, layer: u8, granule: usize) -> Result<(), Fault> {
    Err(Fault::new(cause, layer, granule))
}

#[test]
fn of_a_table(rt: HostRuntime) {
    let mut words = [5, 7];
    let mut table = Table::new(&mut words, ONE);
    let missing = table.append(1, absence(6));
    assert_eq!(rt; missing, refused(Cause::Missing, 1, 1));
    let old = table.append(0, absence(5));
    assert_eq!(rt; old, refused(Cause::BadStamp, 1, 0));
    let full = table.append(0, absence(6));
    assert_eq!(rt; full, refused(Cause::NoFreePlace, 1, 0));
}

#[test]
fn of_a_link(rt: HostRuntime) {
    let mut words = [0, 0];
    let mut link = Link::new(Table::new(&mut words, ONE));
    let entry = Version {
        stamp: 6,
        content: Content::Entry(9),
    };
    link.notice(1);
    assert_eq!(rt; link.append(0, entry), Ok(()));
    link.notice(3);
    let dark = link.append(0, absence(6));
    assert_eq!(rt; dark, refused(Cause::OutOfReach, 3, 0));
    let missing = link.append(1, absence(6));
    assert_eq!(rt; missing, refused(Cause::Missing, 3, 1));
}

// The second half's faults pass up as it counts them.
#[test]
fn of_a_pair(rt: HostRuntime) {
    let mut first = [0, 0];
    let mut second = [5, 7];
    let mut pair = Pair::new(Table::new(&mut first, ONE), Table::new(&mut second, ONE));
    let full = pair.append(1, absence(6));
    assert_eq!(rt; full, refused(Cause::NoFreePlace, 1, 0));
    let missing = pair.append(2, absence(6));
    assert_eq!(rt; missing, refused(Cause::Missing, 2, 2));
}
