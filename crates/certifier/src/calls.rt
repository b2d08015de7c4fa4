// The calls of a transaction's life, and those that ask nothing of one. Each is given the store,
// and its clauses say what it keeps of it (`sound`, `lent`, `same`) and where a fault arose
// (`arising`): facts of the call, which no field of certifier or store can hold.
ghost use Rattle.std.specs.Prelude.{◌≡◌, IfOk, OnErr};
ghost use Rattle.model.specs.declared.answer.Reply.TheVariants as Y;
ghost use Rattle.model.specs.Calls as M;
ghost use Rattle.slot.specs.Means.{slot_of};
ghost use Rattle.certifier.specs.Beside.{beside, JustMade};

use crate::certifier::Certifier;
use model::{Attempt, Opened, Phase, Plan, Refusal, STAMP_LIMIT, Status, Step, Version, Write};
use slot::{Slot, apply, enter_section, older_live, plan_of, release, take_free, wait};
use store::{Archive, Store};

// Where the transaction in a slot stands, with so many older ones.
#[tactic(auto, using(crate::proofs::Does::phase_again))]
fn status_of(slot: &Slot, older: usize) -> Status
    ensures { result ≡ M.status_of (slot_of slot.now) older }
{
    Status {
        phase: slot.phase,
        attempt: slot.attempt,
        older,
        notes: slot.notes.len(),
    }
}

impl Certifier {
    // A certifier that is not opened yet, with all slots free.
    pub fn new() -> Certifier
        ensures { JustMade result }
    {
        Certifier {
            last: None,
            slots: [Slot::free(); 32],
        }
    }

    // Keeps the store's latest stamp as the last stamp.
    pub fn open<S: Store>(&mut self, store: &S) -> Result<Opened, Refusal>
        requires { S.Archive.sound store.now }
        ensures arising { M.Arising (λ _ _. ⊥) result }
        ensures does { M.Does
            (beside self.old
            (S.Archive.means store.now) (S.Store.room store.now))
            M.call_open (M.outcome Y.Opened result)
            (beside self.new
            (S.Archive.means store.now) (S.Store.room store.now)) }
    {
        if self.last.is_some() {
            return Err(Refusal::AlreadyOpened);
        }
        let last = store.latest();
        self.last = Some(last);
        Ok(Opened {
            granules: store.granules(),
            last,
        })
    }

    // Takes a free slot for a new transaction, and answers its attempt.
    pub fn begin<S: Store>(&mut self, store: &S, stamp: u64) -> Result<u64, Refusal>
        ensures arising { M.Arising (λ _ _. ⊥) result }
        ensures does { M.Does
            (beside self.old
            (S.Archive.means store.now) (S.Store.room store.now))
            (M.call_begin stamp) (M.outcome Y.Began result)
            (beside self.new
            (S.Archive.means store.now) (S.Store.room store.now)) }
    {
        let last = self.last.ok_or(Refusal::NotOpened)?;
        if stamp <= last || stamp >= STAMP_LIMIT {
            return Err(Refusal::BadStamp { last });
        }
        take_free(&mut self.slots[..], stamp).map_err(|_| Refusal::NoFreeSlot)?;
        self.last = Some(stamp);
        Ok(1)
    }

    // Goes into its section if no older transaction is live, else it waits.
    pub fn commit<S: Store>(&mut self, store: &S, by: Attempt) -> Result<Phase, Refusal>
        ensures arising { M.Arising (λ _ _. ⊥) result }
        ensures does { M.Does
            (beside self.old
            (S.Archive.means store.now) (S.Store.room store.now))
            (M.call_commit by.stamp by.number) (M.outcome Y.Committing result)
            (beside self.new
            (S.Archive.means store.now) (S.Store.room store.now)) }
    {
        self.last.ok_or(Refusal::NotOpened)?;
        self.running(by)?;
        if older_live(&self.slots[..], by.stamp) == 0 {
            enter_section(&mut self.slots[..], by.stamp);
            Ok(Phase::Section)
        } else {
            wait(&mut self.slots[..], by.stamp);
            Ok(Phase::Waiting)
        }
    }

    // Frees the slot of a running or waiting transaction, then wakes.
    pub fn roll_back<S: Store>(&mut self, store: &S, by: Attempt) -> Result<(), Refusal>
        ensures arising { M.Arising (λ _ _. ⊥) result }
        ensures does { M.Does
            (beside self.old
            (S.Archive.means store.now) (S.Store.room store.now))
            (M.call_roll_back by.stamp by.number) (M.outcome (λ _. Y.RolledBack) result)
            (beside self.new
            (S.Archive.means store.now) (S.Store.room store.now)) }
    {
        self.last.ok_or(Refusal::NotOpened)?;
        self.not_in_section(by)?;
        release(&mut self.slots[..], by.stamp);
        Ok(())
    }

    // Where a transaction stands.
    pub fn status<S: Store>(&self, store: &S, stamp: u64) -> Result<Status, Refusal>
        ensures arising { M.Arising (λ _ _. ⊥) result }
        ensures does { M.Does
            (beside self.now
            (S.Archive.means store.now) (S.Store.room store.now))
            (M.call_status stamp) (M.outcome Y.Status result)
            (beside self.now
            (S.Archive.means store.now) (S.Store.room store.now)) }
    {
        self.last.ok_or(Refusal::NotOpened)?;
        let slot = self.held(stamp)?;
        let older = older_live(&self.slots[..], stamp);
        Ok(status_of(slot, older))
    }

    // Hands a notice to the store.
    pub fn notice<S: Store>(&mut self, store: &mut S, number: u64) -> Result<(), Refusal>
        requires { S.Archive.sound store.old }
        ensures sound { S.Archive.sound store.new }
        ensures lent { S.Store.lent store.new
            ≡ S.Store.lent store.old }
        ensures same { OnErr result (store.new ≡ store.old) }
        ensures arising { M.Arising (λ _ _. ⊥) result }
        ensures notified { IfOk result
            (λ _. S.Store.notified store.old number store.new) }
        ensures does { M.Does
            (beside self.old
            (S.Archive.means store.old) (S.Store.room store.old))
            (M.call_notice (S.Archive.means store.new).reach)
            (M.outcome (λ _. Y.Noticed) result)
            (beside self.new
            (S.Archive.means store.new) (S.Store.room store.new)) }
    {
        self.last.ok_or(Refusal::NotOpened)?;
        store.notice(number);
        Ok(())
    }

    // One step for the transaction that is in its section or checking.
    pub fn advance<S: Store>(&mut self, store: &mut S) -> Result<Step, Refusal>
        requires { S.Archive.sound store.old }
        ensures sound { S.Archive.sound store.new }
        ensures lent { S.Store.lent store.new
            ≡ S.Store.lent store.old }
        ensures same { OnErr result (store.new ≡ store.old) }
        ensures arising { M.Arising (S.Archive.origin store.old) result }
        ensures does { M.Does
            (beside self.old
            (S.Archive.means store.old) (S.Store.room store.old))
            M.call_advance (M.outcome Y.Stepped result)
            (beside self.new
            (S.Archive.means store.new) (S.Store.room store.new)) }
    {
        self.last.ok_or(Refusal::NotOpened)?;
        let plan = plan_of(&self.slots[..]);
        if let Plan::Put { stamp, write } = plan {
            let Write { granule, content } = write;
            let put = store.append(granule, Version { stamp, content });
            put.map_err(|fault| Refusal::Store { granule, fault })?;
        }
        apply(&mut self.slots[..], plan);
        Ok(Step::from(plan))
    }
}
