// What every store does with a version that it accepts.
ghost use Rattle.std.specs.Prelude.{◌≡◌};
ghost use Rattle.model.specs.Stores.{stored};
ghost use Rattle.store_tests.specs.Reads.{ReadBack};

use model::{Fault, Version};
use store::{Store, newest};

// Appends a version, and asks for the granule's newest one, which is then that version.
pub fn append_and_read<S: Store>(
    store: &mut S,
    granule: usize,
    version: Version,
) -> Result<Option<Version>, Fault>
    requires { S.Archive.sound store.old }
    ensures sound { S.Archive.sound store.new }
    ensures lent { S.Store.lent store.new ≡ S.Store.lent store.old }
    ensures read { ReadBack
        (stored (S.Archive.means store.old) (S.Store.room store.old))
        (S.Archive.origin store.old) granule version result }
{
    store.append(granule, version)?;
    newest(store, granule)
}
