// The two interfaces.
ghost use Rattle.std.specs.Prelude.{◌≡◌, ℕ, List, length, OnErr};
ghost use Rattle.model.specs.declared.fault.Fault.{Fault};
ghost use Rattle.model.specs.Archives.{Archived, Proper, Told, latest_of};
ghost use Rattle.model.specs.Stores.{stored, Appended, ReachOnly, Roomy};

use model::{Fault, Version};

// An archive answers questions about versions. Questions leave it as it is. A version is asked for
// by its granule and its number in it.
pub trait Archive {
    // the condition that making an archive gives, and that every call keeps
    ghost sound: { Self → Type 0 };

    ghost means: { Self → Archived };

    // the faults that may arise at a granule, by layer and by the granule as the layer counts it
    ghost origin: { Self → ℕ → Fault → Type 0 };

    ghost proper: { (s : Self) → sound s → Proper (means s) };

    // How many granules there are.
    fn granules(&self) -> usize
        requires { sound self.now }
        ensures { result ≡ (means self.now).count };

    // The latest stamp of all, 0 if there is none.
    fn latest(&self) -> u64
        requires { sound self.now }
        ensures { result ≡ latest_of (means self.now) };

    // How many versions a granule has.
    fn versions(&self, granule: usize) -> usize
        requires { sound self.now }
        ensures { result ≡ length ((means self.now).history granule) };

    fn within_reach(&self, granule: usize) -> bool
        requires { sound self.now }
        ensures { result ≡ (means self.now).reach granule };

    // Version k of a granule, counted from 0.
    fn version(&self, granule: usize, k: usize) -> Result<Version, Fault>
        requires { sound self.now }
        ensures { Told (means self.now) (origin self.now) granule k result };
}

// A version store is an archive that can also grow. That it is sound and stands on the same memory
// is said of each call, and is no field: the stores below any other are of types not known here.
pub trait Store: Archive {
    // the free places of each granule
    ghost room: { Self → ℕ → ℕ };

    // what a store becomes by a notice
    ghost notified: { Self → ℕ → Self → Type 0 };

    // the lent memory that it stands on, by the loans' names
    ghost lent: { Self → List ℕ };

    fn free_places(&self, granule: usize) -> usize
        requires { Self.Archive.sound self.now }
        ensures value { result ≡ room self.now granule }
        ensures roomy { Roomy (Self.Archive.means self.now) granule result };

    // Puts a version behind those of a granule. A refusal leaves the store as it was.
    fn append(&mut self, granule: usize, version: Version) -> Result<(), Fault>
        requires { Self.Archive.sound self.old }
        ensures sound { Self.Archive.sound self.new }
        ensures lent { lent self.new ≡ lent self.old }
        ensures same { OnErr result (self.new ≡ self.old) }
        ensures appended { Appended
            (stored (Self.Archive.means self.old) (room self.old))
            (stored (Self.Archive.means self.new) (room self.new))
            (Self.Archive.origin self.old) granule version result };

    // Takes notice of something outside. Only reach may change.
    fn notice(&mut self, number: u64)
        requires { Self.Archive.sound self.old }
        ensures sound { Self.Archive.sound self.new }
        ensures lent { lent self.new ≡ lent self.old }
        ensures notified { notified self.old number self.new }
        ensures reach { ReachOnly
            (stored (Self.Archive.means self.old) (room self.old))
            (stored (Self.Archive.means self.new) (room self.new)) };
}
