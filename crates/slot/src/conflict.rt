// The conflict check: a pure function of a write set and the notes taken before a mark.
ghost use Rattle.std.specs.Prelude.{◌≡◌};
ghost use Rattle.model.specs.Slots.{conflict};

use model::Write;

// The first granule, in order of writing, that is among the notes. Loops in each other with a
// label, as was asked for.
pub(crate) fn first_conflict(writes: &[Write], notes: &[usize]) -> Option<usize>
    ensures { result ≡ conflict writes.now notes.now }
{
    let mut found = None;
    'writes: for write in writes {
        for note in notes {
            if write.granule == *note {
                found = Some(write.granule);
                break 'writes;
            }
        }
    }
    found
}
