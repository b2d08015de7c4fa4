// The pair: layer 2. It shows two stores as one, the first one's granules and then the second's.
// Where these are more than 4,096 together it shows the first one only. Notices go to both.
ghost use Rattle.std.specs.Prelude.{◌≡◌, ◌++◌};
ghost use Rattle.pair.specs.Pairs.{both, joined, joined_room, joined_origin};
ghost use Rattle.pair.specs.Pairs.{pair_proper, Halved, HalfWith};

use model::{Cause, Fault, MOST_GRANULES, Version};
use store::{Archive, Store};

const LAYER: u8 = 2;

#[derive(Drop)]
pub struct Pair<L, R> {
    first: L,
    second: R,
}

// The half that a granule is sought in; the second has it under another number.
#[derive(Clone, Copy)]
enum Half {
    First,
    Second(usize),
}

impl<L, R> Pair<L, R> {
    pub fn new(first: L, second: R) -> Pair<L, R>
        ensures { (result.first ≡ first) × (result.second ≡ second) }
    {
        Pair { first, second }
    }
}

// That both are sound is no field, but the condition under which each call stands, as was asked for
// of every store.
impl<L: Archive, R: Archive> Pair<L, R> {
    // Whether both are shown.
    fn shows_both(&self) -> bool
        requires sound_first { L.Archive.sound self.now.first }
        requires sound_second { R.Archive.sound self.now.second }
        ensures { result ≡ both
            (L.Archive.means self.now.first)
            (R.Archive.means self.now.second) }
    {
        self.first.granules() + self.second.granules() <= MOST_GRANULES
    }

    // Where a granule is sought; with the second half not shown, nowhere past the first.
    fn half(&self, granule: usize) -> Option<Half>
        requires sound_first { L.Archive.sound self.now.first }
        requires sound_second { R.Archive.sound self.now.second }
        ensures { Halved
            (L.Archive.means self.now.first)
            (R.Archive.means self.now.second) granule result }
    {
        let n = self.first.granules();
        if granule < n {
            Some(Half::First)
        } else if self.shows_both() {
            Some(Half::Second(granule - n))
        } else {
            None
        }
    }

    // The half that has a granule. For one of the first half only that half is asked how many it
    // has, so that a pile of pairs is not counted.
    fn half_with(&self, granule: usize) -> Result<Half, Fault>
        requires sound_first { L.Archive.sound self.now.first }
        requires sound_second { R.Archive.sound self.now.second }
        ensures { HalfWith
            (L.Archive.means self.now.first)
            (R.Archive.means self.now.second) granule result }
    {
        let n = self.first.granules();
        if granule < n {
            Ok(Half::First)
        } else if granule < self.granules() {
            Ok(Half::Second(granule - n))
        } else {
            Err(Fault::new(Cause::Missing, LAYER, granule))
        }
    }
}

impl<L: Archive, R: Archive> Archive for Pair<L, R> {
    ghost sound = { λ s. L.Archive.sound s.first × R.Archive.sound s.second };

    ghost means = { λ s. joined (L.Archive.means s.first) (R.Archive.means s.second) };

    ghost origin = { λ s. joined_origin
        (L.Archive.means s.first) (R.Archive.means s.second)
        (L.Archive.origin s.first) (R.Archive.origin s.second) };

    ghost proper = { λ s h. pair_proper
        (L.Archive.means s.first) (R.Archive.means s.second)
        (L.Archive.proper s.first h.0) (R.Archive.proper s.second h.1) };

    fn granules(&self) -> usize {
        let n = self.first.granules();
        if self.shows_both() {
            n + self.second.granules()
        } else {
            n
        }
    }

    #[tactic(auto, using(crate::proofs::Tops::latest_both))]
    fn latest(&self) -> u64 {
        let latest = self.first.latest();
        if !self.shows_both() {
            return latest;
        }
        latest.max(self.second.latest())
    }

    fn versions(&self, granule: usize) -> usize {
        match self.half(granule) {
            Some(Half::First) => self.first.versions(granule),
            Some(Half::Second(seen)) => self.second.versions(seen),
            None => 0,
        }
    }

    fn within_reach(&self, granule: usize) -> bool {
        match self.half(granule) {
            Some(Half::First) => self.first.within_reach(granule),
            Some(Half::Second(seen)) => self.second.within_reach(seen),
            None => false,
        }
    }

    fn version(&self, granule: usize, k: usize) -> Result<Version, Fault> {
        match self.half_with(granule)? {
            Half::First => self.first.version(granule, k),
            Half::Second(seen) => self.second.version(seen, k),
        }
    }
}

impl<L: Store, R: Store> Store for Pair<L, R> {
    ghost room = { λ s. joined_room
        (L.Archive.means s.first) (R.Archive.means s.second)
        (L.Store.room s.first) (R.Store.room s.second) };

    ghost notified = { λ s n t.
        L.Store.notified s.first n t.first
        × R.Store.notified s.second n t.second };

    ghost lent = { λ s. L.Store.lent s.first ++ R.Store.lent s.second };

    fn free_places(&self, granule: usize) -> usize {
        match self.half(granule) {
            Some(Half::First) => self.first.free_places(granule),
            Some(Half::Second(seen)) => self.second.free_places(seen),
            None => 0,
        }
    }

    fn append(&mut self, granule: usize, version: Version) -> Result<(), Fault> {
        match self.half_with(granule)? {
            Half::First => self.first.append(granule, version),
            Half::Second(seen) => self.second.append(seen, version),
        }
    }

    fn notice(&mut self, number: u64) {
        self.first.notice(number);
        self.second.notice(number);
    }
}
