// Questions over any archive.
ghost use Rattle.model.specs.Archives.{ToldNewest};

use crate::archive::Archive;
use model::{Cause, Fault, Version};

// The newest version of a granule, or none where it has none. Of an empty granule it asks for
// version 0, so that reach is tested there too.
#[tactic(auto, using(crate::proofs::Asked::told_newest, crate::proofs::Asked::told_none))]
pub fn newest<S: Archive>(archive: &S, granule: usize) -> Result<Option<Version>, Fault>
    requires { S.Archive.sound archive.now }
    ensures { ToldNewest
        (S.Archive.means archive.now)
        (S.Archive.origin archive.now) granule result }
{
    let k = archive.versions(granule).saturating_sub(1);
    let exists = granule < archive.granules();
    match archive.version(granule, k) {
        Ok(version) => Ok(Some(version)),
        Err(fault) if exists && fault.cause == Cause::Missing => Ok(None),
        Err(fault) => Err(fault),
    }
}
