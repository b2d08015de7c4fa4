// Writing and erasing.
ghost use Rattle.std.specs.Prelude.{◌≡◌, true, is_some, IfOk};
ghost use Rattle.model.specs.declared.answer.Reply.TheVariants as Y;
ghost use Rattle.model.specs.Worlds.{slot_with};
ghost use Rattle.model.specs.Refusals.{on_writing};
ghost use Rattle.model.specs.Calls as M;
ghost use Rattle.slot.specs.Changes.{write_fits};
ghost use Rattle.certifier.specs.Beside.{slots_in, beside};
ghost use Rattle.certifier.specs.Ruled.{Passes};

use crate::certifier::Certifier;
use kind::EntryKind;
use model::{Attempt, Content, Refusal};
use slot::{other_writers, record};
use store::{Archive, Store};

impl Certifier {
    // Whether a write of the granule may be recorded, and has a place.
    fn on_writing<S: Store>(&self, store: &S, by: Attempt, granule: usize) -> Result<(), Refusal>
        requires { S.Archive.sound store.now }
        ensures passes { Passes
            (on_writing (beside self.now
            (S.Archive.means store.now) (S.Store.room store.now))
            by.stamp by.number granule) result }
        ensures fits { IfOk result (λ _. write_fits granule
            (slot_with (slots_in self.now) by.stamp).writes ≡ true) }
    {
        let slot = self.on_granule(store, by, granule)?;
        if slot.own(granule).is_some() {
            return Ok(());
        }
        if slot.writes.is_full() {
            return Err(Refusal::TooManyWrites);
        }
        let others = other_writers(&self.slots[..], by.stamp, granule);
        if store.free_places(granule) <= others {
            return Err(Refusal::NoFreePlace);
        }
        Ok(())
    }

    // Records an entry, by its code; a later one replaces the earlier.
    #[tactic(auto, using(crate::proofs::Writing::recorded_as))]
    pub fn write<S: Store, K: EntryKind>(
        &mut self,
        store: &S,
        by: Attempt,
        granule: usize,
        kind: &K,
        code: u64,
    ) -> Result<(), Refusal>
        requires { S.Archive.sound store.now }
        ensures arising { M.Arising (λ _ _. ⊥) result }
        ensures does { M.Does
            (beside self.old
            (S.Archive.means store.now) (S.Store.room store.now))
            (M.call_write by.stamp by.number granule code
            (λ c. is_some (K.EntryKind.decoded kind.now c)))
            (M.outcome (λ _. Y.Recorded) result)
            (beside self.new
            (S.Archive.means store.now) (S.Store.room store.now)) }
    {
        self.on_writing(store, by, granule)?;
        if kind.decode(code).is_none() {
            return Err(Refusal::ForeignCode { code });
        }
        record(&mut self.slots[..], by.stamp, granule, Content::Entry(code));
        Ok(())
    }

    // Records an absence; a later write replaces it.
    #[tactic(auto, using(crate::proofs::Writing::recorded_as))]
    pub fn erase<S: Store>(&mut self, store: &S, by: Attempt, granule: usize) -> Result<(), Refusal>
        requires { S.Archive.sound store.now }
        ensures arising { M.Arising (λ _ _. ⊥) result }
        ensures does { M.Does
            (beside self.old
            (S.Archive.means store.now) (S.Store.room store.now))
            (M.call_erase by.stamp by.number granule) (M.outcome (λ _. Y.Recorded) result)
            (beside self.new
            (S.Archive.means store.now) (S.Store.room store.now)) }
    {
        self.on_writing(store, by, granule)?;
        record(&mut self.slots[..], by.stamp, granule, Content::Absence);
        Ok(())
    }
}
