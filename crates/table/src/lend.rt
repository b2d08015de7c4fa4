// What lent words hold once the table is gone.
ghost use Rattle.table.specs.Check.{PutLent};

use crate::check::Shape;
use crate::table::Table;
use model::{Fault, Version};

// Appends a version to the table in these words, and lets the table go. Words that are no table
// have no granule, so that granule is missing.
pub fn append_lent(
    words: &mut [u64],
    shape: Shape,
    granule: usize,
    version: Version,
) -> Result<(), Fault>
    ensures { PutLent
        words.old words.new shape.granules shape.depth granule version result }
{
    let mut table = Table::new(words, shape);
    table.put(granule, version)
}
