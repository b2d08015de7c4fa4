// Versions in words, two words to a version. The first word has the stamp in bits 0 to 61, and
// bit 63 is set for an absence; the second word has the entry's code, 0 for an absence. Pairs of
// words are counted from 0, so that pair p begins at word 2 * p. An unused pair is zero.
ghost use Rattle.std.specs.Prelude.{◌≡◌, ◌+◌, ◌*◌, ◌^◌, ◌<◌, ◌≤◌, length, slice_get};
ghost use Rattle.model.specs.Archives.{top};
ghost use Rattle.table.specs.Words.{version_of, versions_in, put_at, Placed};

use crate::check::Shape;
use model::{Cause, Content, STAMP_LIMIT, Version};

// Bit 63 of a first word.
pub(crate) const ABSENCE: u64 = 0x8000_0000_0000_0000;

// The version that two words hold.
pub(crate) fn decode(first: u64, second: u64) -> Version
    ensures { result ≡ version_of first second }
{
    let stamp = first % STAMP_LIMIT;
    let content = if first >= ABSENCE {
        Content::Absence
    } else {
        Content::Entry(second)
    };
    Version { stamp, content }
}

// The pairs of words of one granule, `depth` of them from pair `first` on. The words are those of
// the whole table, since a wrong pair and a place are told by where they stand there.
#[derive(Clone, Copy)]
pub(crate) struct Pairs<'a> {
    pub(crate) words: &'a [u64],
    pub(crate) first: usize,
    pub(crate) depth: usize,
    ghost within: { 2 * (first + depth) ≤ length words.now },
}

impl<'a> Pairs<'a> {
    // Those of a granule.
    pub(crate) fn of(words: &'a [u64], shape: Shape, granule: usize) -> Pairs<'a>
        requires { 2 * (granule * shape.depth + shape.depth) ≤ length words.now }
        ensures words { result.words.now ≡ words.now }
        ensures first { result.first ≡ granule * shape.depth }
        ensures depth { result.depth ≡ shape.depth }
    {
        Pairs {
            words,
            first: granule * shape.depth,
            depth: shape.depth,
        }
    }
}

impl Pairs<'_> {
    // How many are used.
    pub(crate) fn used(&self) -> usize
        ensures value { result ≡ length
            (versions_in self.now.words.now self.now.first self.now.depth) }
        ensures within { result ≤ self.now.depth }
    {
        (0..self.depth)
            .position(|k| self.words[2 * (self.first + k)] == 0)
            .unwrap_or(self.depth)
    }

    // The last stamp, 0 if none is used.
    pub(crate) fn last_stamp(&self) -> u64
        ensures { result ≡ top (versions_in self.now.words.now self.now.first self.now.depth) }
    {
        match self.used() {
            0 => 0,
            k => self.words[2 * (self.first + (k - 1))] % STAMP_LIMIT,
        }
    }

    // Version k.
    #[tactic(auto, using(crate::proofs::Pairs::versions_get))]
    pub(crate) fn version(&self, k: usize) -> Option<Version>
        ensures { result ≡ slice_get
            (versions_in self.now.words.now self.now.first self.now.depth) k }
    {
        if k >= self.used() {
            return None;
        }
        let i = 2 * (self.first + k);
        Some(decode(self.words[i], self.words[i + 1]))
    }

    // The pair that a version with this stamp comes to stand in.
    pub(crate) fn place(&self, stamp: u64) -> Result<usize, Cause>
        ensures { Placed self.now.words.now self.now.first self.now.depth stamp result }
    {
        if stamp >= STAMP_LIMIT || stamp <= self.last_stamp() {
            return Err(Cause::BadStamp);
        }
        let k = self.used();
        if k >= self.depth {
            return Err(Cause::NoFreePlace);
        }
        Ok(self.first + k)
    }
}

// Writes a version into a pair.
pub(crate) fn put(words: &mut [u64], pair: usize, version: Version)
    requires { (2 * pair + 1 < length words.old) × (version.stamp < 2 ^ 62) }
    ensures { words.new ≡ put_at words.old pair version }
{
    let (first, second) = match version.content {
        Content::Entry(code) => (version.stamp, code),
        Content::Absence => (ABSENCE + version.stamp, 0),
    };
    words[2 * pair] = first;
    words[2 * pair + 1] = second;
}
