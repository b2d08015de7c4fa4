// The link: layer 3. It reaches a store by two radios, both up when the link is made. Notices 1
// and 2 put the first radio down and up, 3 and 4 the second, and every notice is passed below.
ghost use Rattle.std.specs.Prelude.{◌≡◌, true, ◌||◌};
ghost use Rattle.link.specs.Links.{linked, link_origin, link_proper, passed, radio};

use model::{Cause, Fault, Version};
use store::{Archive, Store};

const LAYER: u8 = 3;

#[derive(Drop)]
pub struct Link<S> {
    below: S,
    // whether the first radio is up
    first: bool,
    // whether the second radio is up
    second: bool,
}

impl<S> Link<S> {
    pub fn new(below: S) -> Link<S>
        ensures { (result.below ≡ below) × (result.first ≡ true) × (result.second ≡ true) }
    {
        Link {
            below,
            first: true,
            second: true,
        }
    }

    // Whether a radio is up.
    fn is_up(&self) -> bool
        ensures { result ≡ (self.now.first || self.now.second) }
    {
        self.first || self.second
    }
}

impl<S: Archive> Link<S> {
    // What the link refuses itself: a missing granule, and any while both radios are down.
    fn pass(&self, granule: usize) -> Result<(), Fault>
        requires { S.Archive.sound self.now.below }
        ensures { result ≡ passed
            (self.now.first || self.now.second) (S.Archive.means self.now.below).count granule }
    {
        if granule >= self.below.granules() {
            return Err(Fault::new(Cause::Missing, LAYER, granule));
        }
        if !self.is_up() {
            return Err(Fault::new(Cause::OutOfReach, LAYER, granule));
        }
        Ok(())
    }
}

impl<S: Archive> Archive for Link<S> {
    ghost sound = { λ s. S.Archive.sound s.below };

    ghost means = { λ s. linked (s.first || s.second) (S.Archive.means s.below) };

    ghost origin = { λ s. link_origin (s.first || s.second)
        (S.Archive.means s.below).count (S.Archive.origin s.below) };

    ghost proper = { λ s h. link_proper (s.first || s.second)
        (S.Archive.means s.below) (S.Archive.proper s.below h) };

    fn granules(&self) -> usize {
        self.below.granules()
    }

    fn latest(&self) -> u64 {
        self.below.latest()
    }

    fn versions(&self, granule: usize) -> usize {
        self.below.versions(granule)
    }

    fn within_reach(&self, granule: usize) -> bool {
        self.is_up() && self.below.within_reach(granule)
    }

    fn version(&self, granule: usize, k: usize) -> Result<Version, Fault> {
        self.pass(granule)?;
        self.below.version(granule, k)
    }
}

impl<S: Store> Store for Link<S> {
    ghost room = { λ s. S.Store.room s.below };

    ghost notified = { λ s n t.
        (t.first ≡ radio 1 2 n s.first) × (t.second ≡ radio 3 4 n s.second)
        × S.Store.notified s.below n t.below };

    ghost lent = { λ s. S.Store.lent s.below };

    fn free_places(&self, granule: usize) -> usize {
        self.below.free_places(granule)
    }

    fn append(&mut self, granule: usize, version: Version) -> Result<(), Fault> {
        self.pass(granule)?;
        self.below.append(granule, version)
    }

    fn notice(&mut self, number: u64) {
        match number {
            1 => self.first = false,
            2 => self.first = true,
            3 => self.second = false,
            4 => self.second = true,
            _ => {}
        }
        self.below.notice(number);
    }
}
