// Whose call it is: the lines of the table of refusals that most calls share. Each hands out the
// slot of the call's own transaction: a fact of result, certifier and call, so that it stands in a
// clause, and in no type. Attempt, store and granule stay three: some calls have no granule, and
// the store is the caller's.
ghost use Rattle.std.specs.Prelude.{◌≡◌, [], ◌∷◌, IfOk, Some};
ghost use Rattle.model.specs.Slots as M;
ghost use Rattle.model.specs.Refusals.{no_transaction, of_attempt, of_phase};
ghost use Rattle.model.specs.Refusals.{on_granule, running, running_or_waiting};
ghost use Rattle.slot.specs.Means.{slot_of};
ghost use Rattle.certifier.specs.Beside.{slots_in, beside};
ghost use Rattle.certifier.specs.Ruled.{HandsOut, Passes, PassesPhase};

use crate::certifier::Certifier;
use model::{Attempt, Phase, Refusal};
use slot::{Slot, held, other_section};
use store::{Archive, Store};

impl Certifier {
    // The slot of a transaction.
    pub(crate) fn held(&self, stamp: u64) -> Result<&Slot, Refusal>
        ensures passes { Passes (no_transaction (slots_in self.now) stamp ∷ []) result }
        ensures held { HandsOut stamp (slots_in self.now) result }
    {
        held(&self.slots[..], stamp).ok_or(Refusal::NoSuchTransaction)
    }

    // The same, where this is its present attempt.
    fn present(&self, by: Attempt) -> Result<&Slot, Refusal>
        ensures passes { Passes (of_attempt (slots_in self.now) by.stamp by.number) result }
        ensures held { HandsOut by.stamp (slots_in self.now) result }
    {
        let slot = self.held(by.stamp)?;
        if slot.attempt != by.number {
            return Err(Refusal::OldAttempt {
                present: slot.attempt,
            });
        }
        Ok(slot)
    }

    // The same, where the transaction is in a phase that the call needs.
    fn in_phase<F: FnOnce(Phase) -> bool>(&self, by: Attempt, needed: F) -> Result<&Slot, Refusal>
        requires { F.IsAlwaysCallable needed }
        ensures passes { PassesPhase (F.post needed)
            (slots_in self.now) by.stamp by.number result }
        ensures held { HandsOut by.stamp (slots_in self.now) result }
    {
        let slot = self.present(by)?;
        let phase = slot.phase;
        if !needed(phase) {
            return Err(Refusal::WrongPhase { phase });
        }
        Ok(slot)
    }

    // The slot of a running transaction.
    pub(crate) fn running(&self, by: Attempt) -> Result<&Slot, Refusal>
        ensures passes { Passes
            (of_phase (slots_in self.now) by.stamp by.number running) result }
        ensures held { HandsOut by.stamp (slots_in self.now) result }
    {
        self.in_phase(by, Phase::is_running)
    }

    // The same, of a running or waiting transaction.
    pub(crate) fn not_in_section(&self, by: Attempt) -> Result<&Slot, Refusal>
        ensures passes { Passes
            (of_phase (slots_in self.now) by.stamp by.number running_or_waiting) result }
        ensures held { HandsOut by.stamp (slots_in self.now) result }
    {
        self.in_phase(by, Phase::is_running_or_waiting)
    }

    // The slot of a running transaction that may work on the granule.
    pub(crate) fn on_granule<S: Store>(
        &self,
        store: &S,
        by: Attempt,
        granule: usize,
    ) -> Result<&Slot, Refusal>
        requires { S.Archive.sound store.now }
        ensures passes { Passes
            (on_granule (beside self.now
            (S.Archive.means store.now) (S.Store.room store.now))
            by.stamp by.number granule) result }
        ensures held { HandsOut by.stamp (slots_in self.now) result }
    {
        self.last.ok_or(Refusal::NotOpened)?;
        if granule >= store.granules() {
            return Err(Refusal::NoSuchGranule);
        }
        let slot = self.running(by)?;
        match other_section(&self.slots[..], by.stamp, granule) {
            Some(stamp) => Err(Refusal::InSection { stamp }),
            None => Ok(slot),
        }
    }
}
