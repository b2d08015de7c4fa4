// The table: layer 1. It stands on lent words, and granule g begins at word 2 * g * depth. All
// its granules are within reach, and a notice leaves it as it is.
ghost use Rattle.std.specs.Prelude.{◌≡◌, ◌*◌, ◌<◌, ◌≤◌, [], ◌∷◌, OnErr, MatchOption};
ghost use Rattle.model.specs.Archives.{top, top_below};
ghost use Rattle.model.specs.Stores.{Arose};
ghost use Rattle.table.specs.Words.{table_archive, table_room};
ghost use Rattle.table.specs.Check.{SoundTable, PutTable};
ghost use Rattle.table.specs.Check.{table_verdict, kept_granules, kept_depth};
ghost use Rattle.table.specs.Rows.{table_proper};

use crate::check::{Shape, check_words};
use crate::words::{Pairs, put};
use model::{Cause, Fault, Version};
use store::{Archive, Store};

const LAYER: u8 = 1;

// That the words are sound is no field of it, but the condition `sound` under which each call
// stands, as was asked for of every store.
#[derive(Drop)]
pub struct Table<'a> {
    words: &'a mut [u64],
    shape: Shape,
}

impl<'a> Table<'a> {
    // A table over these words; where the check refuses them it has no granules.
    pub fn new(words: &'a mut [u64], shape: Shape) -> Table<'a>
        ensures sound { SoundTable
            result.words.now result.shape.granules result.shape.depth }
        ensures lent { result.words.ghost_name ≡ words.entry.ghost_name }
        ensures words { result.words.now ≡ words.old }
        ensures granules { result.shape.granules ≡ kept_granules
            (table_verdict words.old shape.granules shape.depth) shape.granules }
        ensures depth { result.shape.depth ≡ kept_depth
            (table_verdict words.old shape.granules shape.depth) shape.depth }
    {
        match check_words(words, shape) {
            Ok(()) => Table { words, shape },
            Err(_) => Table {
                words,
                shape: Shape {
                    granules: 0,
                    depth: 1,
                },
            },
        }
    }

    // The pairs of a granule.
    fn pairs(&self, granule: usize) -> Option<Pairs<'_>>
        requires { SoundTable
            self.now.words.now self.now.shape.granules self.now.shape.depth }
        ensures { MatchOption result
            (self.now.shape.granules ≤ granule)
            (λ p. (granule < self.now.shape.granules)
            × (p.words.now ≡ self.now.words.now)
            × (p.first ≡ granule * self.now.shape.depth)
            × (p.depth ≡ self.now.shape.depth)) }
    {
        if granule >= self.shape.granules {
            return None;
        }
        Some(Pairs::of(self.words, self.shape, granule))
    }

    // The last stamp of a granule, 0 if it has no version.
    fn last_stamp(&self, granule: usize) -> u64
        requires { SoundTable
            self.now.words.now self.now.shape.granules self.now.shape.depth }
        ensures { result ≡ top ((table_archive
            self.now.words.now self.now.shape.granules self.now.shape.depth).history granule) }
    {
        self.pairs(granule).map_or(0, |pairs| pairs.last_stamp())
    }

    // The latest stamp of the granules below this one. A fold, which takes half as long as the
    // greatest of the mapped stamps.
    fn latest_below(&self, granule: usize) -> u64
        requires { SoundTable
            self.now.words.now self.now.shape.granules self.now.shape.depth }
        ensures { result ≡ top_below granule (table_archive
            self.now.words.now self.now.shape.granules self.now.shape.depth).history }
    {
        (0..granule).fold(0u64, |latest, g| latest.max(self.last_stamp(g)))
    }

    // What `append` does, with what then stands in the words.
    pub(crate) fn put(&mut self, granule: usize, version: Version) -> Result<(), Fault>
        requires { SoundTable
            self.old.words.now self.old.shape.granules self.old.shape.depth }
        ensures lent { self.new.words.ghost_name ≡ self.old.words.ghost_name }
        ensures shape { self.new.shape ≡ self.old.shape }
        ensures same { OnErr result (self.new ≡ self.old) }
        ensures words { PutTable
            self.old.words.now self.new.words.now
            self.old.shape.granules self.old.shape.depth granule version result }
    {
        let pair = self
            .pairs(granule)
            .ok_or(Cause::Missing)
            .and_then(|pairs| pairs.place(version.stamp))
            .map_err(|cause| Fault::new(cause, LAYER, granule))?;
        put(self.words, pair, version);
        Ok(())
    }
}

impl Archive for Table<'_> {
    ghost sound = { λ s. SoundTable s.words.now s.shape.granules s.shape.depth };

    ghost means = { λ s. table_archive s.words.now s.shape.granules s.shape.depth };

    ghost origin = { λ s. Arose 1 };

    ghost proper = { λ s h. table_proper s.words.now s.shape.granules s.shape.depth h };

    fn granules(&self) -> usize {
        self.shape.granules
    }

    fn latest(&self) -> u64 {
        self.latest_below(self.shape.granules)
    }

    fn versions(&self, granule: usize) -> usize {
        self.pairs(granule).map_or(0, |pairs| pairs.used())
    }

    fn within_reach(&self, granule: usize) -> bool {
        granule < self.shape.granules
    }

    fn version(&self, granule: usize, k: usize) -> Result<Version, Fault> {
        self.pairs(granule)
            .and_then(|pairs| pairs.version(k))
            .ok_or(Fault::new(Cause::Missing, LAYER, granule))
    }
}

impl Store for Table<'_> {
    ghost room = { λ s. table_room s.words.now s.shape.granules s.shape.depth };

    ghost notified = { λ s n t. t ≡ s };

    ghost lent = { λ s. s.words.ghost_name ∷ [] };

    fn free_places(&self, granule: usize) -> usize {
        self.pairs(granule)
            .map_or(0, |pairs| pairs.depth - pairs.used())
    }

    fn append(&mut self, granule: usize, version: Version) -> Result<(), Fault> {
        self.put(granule, version)
    }

    fn notice(&mut self, _number: u64) {}
}
