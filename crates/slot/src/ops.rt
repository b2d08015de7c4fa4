// What one slot tells, and what may be done to it.
ghost use Rattle.std.specs.Prelude.{◌≡◌, [], slice_get};
ghost use Rattle.std.specs.Result.{is_ok};
ghost use Rattle.bounded.specs.Listed.{listed};
ghost use Rattle.model.specs.Slots as M;
ghost use Rattle.slot.specs.Means.{slot_of};
ghost use Rattle.slot.specs.Changes.{noted, place_of, recorded, recorded_in};

use crate::slot::Slot;
use bounded::{Bounded, Full};
use model::{Content, Mark, Phase, Write};

impl Slot {
    pub fn free() -> Slot
        ensures { slot_of result ≡ M.free_slot }
    {
        Slot {
            stamp: 0,
            attempt: 0,
            phase: Phase::Free,
            notes: Bounded::new(0),
            writes: Bounded::new(Write {
                granule: 0,
                content: Content::Absence,
            }),
            puts: 0,
            mark: Mark::Unmarked,
        }
    }

    // Gives the slot to a new transaction.
    pub fn begin(&mut self, stamp: u64)
        ensures { slot_of self.new ≡ M.new_slot stamp }
    {
        self.release();
        self.stamp = stamp;
        self.attempt = 1;
        self.phase = Phase::Running;
    }

    pub fn release(&mut self)
        ensures { slot_of self.new ≡ M.free_slot }
    {
        *self = Slot::free();
    }

    // Empties notes and writes.
    fn forget(&mut self)
        ensures { slot_of self.new ≡ M.with_notes [] (M.with_writes [] (slot_of self.old)) }
    {
        self.notes.clear();
        self.writes.clear();
    }

    // What the transaction has written to a granule.
    pub fn own(&self, granule: usize) -> Option<Content>
        ensures { result ≡ M.own granule (slot_of self.now).writes }
    {
        let writes = self.writes.as_slice();
        writes
            .iter()
            .find(|write| write.granule == granule)
            .map(|write| write.content)
    }

    // The write that is to be appended next.
    pub(crate) fn next_write(&self) -> Option<Write>
        ensures { result ≡ slice_get (slot_of self.now).writes (slot_of self.now).puts }
    {
        self.writes.as_slice().get(self.puts).copied()
    }

    // Notes a granule, once. Where there is no room for a note nothing changes.
    pub fn note(&mut self, granule: usize) -> Result<(), Full>
        ensures took { is_ok result ≡ M.note_fits granule (slot_of self.old).notes }
        ensures after { slot_of self.new ≡ noted granule (slot_of self.old) }
    {
        if self.notes.as_slice().contains(&granule) {
            return Ok(());
        }
        self.notes.push(granule)
    }

    // Records a write, in place of an earlier one of the granule; where there is no room for one
    // more it changes nothing.
    pub fn record(&mut self, granule: usize, content: Content)
        ensures { slot_of self.new ≡ recorded granule content (slot_of self.old) }
    {
        record_in(&mut self.writes, Write { granule, content });
    }

    // The transaction commits, but has to wait for an older one.
    pub fn wait(&mut self)
        ensures { slot_of self.new ≡ M.in_phase 2 (slot_of self.old) }
    {
        self.phase = Phase::Waiting;
    }

    pub fn enter_section(&mut self)
        ensures { slot_of self.new ≡ M.in_section (slot_of self.old) }
    {
        self.phase = Phase::Section;
        self.puts = 0;
    }

    // One more of the writes has been appended.
    pub fn count_put(&mut self)
        ensures { slot_of self.new ≡ M.one_put (slot_of self.old) }
    {
        if self.puts < self.writes.len() {
            self.puts += 1;
        }
    }

    pub fn start_checking(&mut self)
        ensures { slot_of self.new ≡ M.in_phase 4 (slot_of self.old) }
    {
        self.phase = Phase::Checking;
    }

    // The check lets the transaction go on.
    pub fn pass(&mut self)
        ensures { slot_of self.new ≡ M.with_mark Mark.Checked (slot_of self.old) }
    {
        self.mark = Mark::Checked;
    }

    // Back to phase 1 with its stamp and the next attempt.
    pub fn restart(&mut self)
        ensures { slot_of self.new ≡ M.restarted (slot_of self.old) }
    {
        self.attempt = self.attempt.saturating_add(1);
        self.phase = Phase::Running;
        self.forget();
        // no mark is left to be checked
        self.pass();
    }

    pub fn commit(&mut self)
        ensures { slot_of self.new ≡ M.committed (slot_of self.old) }
    {
        self.phase = Phase::Committed;
        self.forget();
    }

    // Marks the notes of a live transaction younger than the one with this stamp.
    pub(crate) fn mark_younger(&mut self, stamp: u64)
        ensures { slot_of self.new ≡ M.mark_younger stamp (slot_of self.old) }
    {
        if stamp < self.stamp && self.phase.is_live() {
            self.mark = Mark::Marked(self.notes.len());
        }
    }

    pub(crate) fn unmark(&mut self)
        ensures { slot_of self.new ≡ M.with_mark Mark.Unmarked (slot_of self.old) }
    {
        self.mark = Mark::Unmarked;
    }
}

// Sets the write of a granule where it fits.
fn record_in(writes: &mut Bounded<Write, 16>, write: Write)
    ensures { listed writes.new
        ≡ recorded_in write.granule write.content (listed writes.old) }
{
    match place_of(writes.as_slice(), write.granule) {
        Some(i) => writes.set(i, write),
        None => {
            let _ = writes.push(write);
        }
    }
}

// Where a granule stands among the writes.
fn place_of(writes: &[Write], granule: usize) -> Option<usize>
    ensures { result ≡ place_of granule writes.now }
{
    writes.iter().position(|write| write.granule == granule)
}
