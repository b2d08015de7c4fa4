// The check that comes before a table: first the shape, then each pair of words in order. It
// carries the granule's last stamp and whether an unused pair was met, and stops at the first
// pair that is wrong.
ghost use Rattle.std.specs.Prelude.{◌≡◌, false};
ghost use Rattle.table.specs.Words.{low_bits, is_unused, is_wrong, wrong_pair};
ghost use Rattle.table.specs.Check.{table_verdict, pair_verdict, fault_number};
ghost use Rattle.table.specs.Law.{Lawful};

use crate::words::{ABSENCE, Pairs};
use model::{MOST_GRANULES, STAMP_LIMIT};

// How words are divided: so many granules, with so many pairs of words each.
#[derive(Clone, Copy, PartialEq, Eq, Debug)]
pub struct Shape {
    pub granules: usize,
    pub depth: usize,
}

// Why words are refused as a table.
#[derive(Clone, Copy, PartialEq, Eq, Debug)]
pub enum TableFault {
    // a pair is wrong; its first word's index
    Pair { word: usize },
    // too many granules, a depth out of range, or too few words
    Shape,
}

impl TableFault {
    // By a match, since a case with data has no number that `as` could give.
    pub fn number(self) -> u8
        ensures { result ≡ fault_number self }
    {
        match self {
            TableFault::Pair { .. } => 25,
            TableFault::Shape => 26,
        }
    }
}

// Whether a pair of words is unused. The two are passed as they are read from the slice: a struct
// of them would only be taken apart again.
fn unused(first: u64, second: u64) -> bool
    ensures { result ≡ is_unused first second }
{
    first == 0 && second == 0
}

// A first word without bit 63.
fn low_bits(first: u64) -> u64
    ensures { result ≡ low_bits first }
{
    first % ABSENCE
}

// Whether a used pair is wrong behind the stamp `last`, where `met` says that an unused pair came
// before.
fn wrong(last: u64, met: bool, first: u64, second: u64) -> bool
    ensures { result ≡ is_wrong last met first second }
{
    met || low_bits(first) >= STAMP_LIMIT
        || (first >= ABSENCE && second > 0)
        || first % STAMP_LIMIT <= last
}

impl Pairs<'_> {
    // Refuses the first wrong pair. A loop over pairs with an index, as was asked for; it carries
    // the previous stamp and whether an unused pair was met.
    fn check(&self) -> Result<(), TableFault>
        ensures { result ≡ pair_verdict
            (wrong_pair self.now.words.now self.now.first self.now.depth 0 false) }
    {
        let mut last = 0;
        let mut met = false;
        for k in 0..self.depth {
            let word = 2 * (self.first + k);
            let first = self.words[word];
            let second = self.words[word + 1];
            if unused(first, second) {
                met = true;
            } else {
                if wrong(last, met, first, second) {
                    return Err(TableFault::Pair { word });
                }
                last = first % STAMP_LIMIT;
            }
        }
        Ok(())
    }
}

// Whether these words hold a table of this shape.
pub fn check_words(words: &[u64], shape: Shape) -> Result<(), TableFault>
    ensures value { result ≡ table_verdict words.now shape.granules shape.depth }
    ensures law { Lawful words.now shape.granules shape.depth result }
{
    let Shape { granules, depth } = shape;
    if granules > MOST_GRANULES
        || !(1..=64).contains(&depth)
        || words.len() < 2 * (granules * depth)
    {
        return Err(TableFault::Shape);
    }
    for g in 0..granules {
        Pairs::of(words, shape, g).check()?;
    }
    Ok(())
}
