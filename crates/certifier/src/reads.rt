// Reading.
ghost use Rattle.std.specs.Prelude.{◌≡◌, is_some};
ghost use Rattle.std.specs.Option.{option_map};
ghost use Rattle.model.specs.declared.answer.Reply.TheVariants as Y;
ghost use Rattle.model.specs.Calls as M;
ghost use Rattle.certifier.specs.Beside.{beside};
ghost use Rattle.certifier.specs.Ruled.{ReadCode};

use crate::certifier::Certifier;
use kind::EntryKind;
use model::{Attempt, Refusal};
use slot::note;
use store::{Archive, Store, newest};

impl Certifier {
    // A read but for the code's kind: from the own write, else from the newest version, which is
    // noted.
    fn read_code<S: Store>(
        &mut self,
        store: &S,
        by: Attempt,
        granule: usize,
    ) -> Result<Option<u64>, Refusal>
        requires { S.Archive.sound store.now }
        ensures arising { M.Arising (S.Archive.origin store.now) result }
        ensures read { ReadCode
            (beside self.old
            (S.Archive.means store.now) (S.Store.room store.now))
            by.stamp by.number granule result
            (beside self.new
            (S.Archive.means store.now) (S.Store.room store.now)) }
    {
        if let Some(content) = self.on_granule(store, by, granule)?.own(granule) {
            return Ok(content.code());
        }
        let told = newest(store, granule);
        let version = told.map_err(|fault| Refusal::Store { granule, fault })?;
        note(&mut self.slots[..], by.stamp, granule).map_err(|_| Refusal::TooManyNotes)?;
        Ok(version.and_then(|version| version.content.code()))
    }

    // The transaction's own write of a granule, or else the newest version's entry, or none.
    pub fn read<S: Store, K: EntryKind>(
        &mut self,
        store: &S,
        by: Attempt,
        granule: usize,
        kind: &K,
    ) -> Result<Option<K::Entry>, Refusal>
        requires { S.Archive.sound store.now }
        ensures arising { M.Arising (S.Archive.origin store.now) result }
        ensures does { M.Does
            (beside self.old
            (S.Archive.means store.now) (S.Store.room store.now))
            (M.call_read by.stamp by.number granule
            (λ c. is_some (K.EntryKind.decoded kind.now c)))
            (M.outcome (λ o. Y.Read (option_map (K.EntryKind.coded kind.now) o)) result)
            (beside self.new
            (S.Archive.means store.now) (S.Store.room store.now)) }
    {
        let Some(code) = self.read_code(store, by, granule)? else {
            return Ok(None);
        };
        let value = kind.decode(code).ok_or(Refusal::ForeignCode { code })?;
        Ok(Some(value))
    }
}
