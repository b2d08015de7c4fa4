// Events as calls.
ghost use Rattle.std.specs.Prelude.{◌≡◌, OnErr};
ghost use Rattle.script.specs.Events.{said};
ghost use Rattle.model.specs.Calls as M;
ghost use Rattle.certifier.specs.Beside.{beside};
ghost use Rattle.replay.specs.Replays.{sense, PutEvent, of_kind};

use certifier::Certifier;
use kind::{EntryKind, RosterKind};
use model::{Attempt, Refusal, Reply};
use script::Event;
use store::{Archive, Store};

// Who makes the call of an event, by its numbers.
fn by(stamp: u64, number: u64) -> Attempt
    ensures { (result.stamp ≡ stamp) × (result.number ≡ number) }
{
    Attempt { stamp, number }
}

// A read as the roster makes it: the entry's code, where it is of the granule's kind.
fn read_code<S: Store>(
    certifier: &mut Certifier,
    store: &S,
    by: Attempt,
    granule: usize,
) -> Result<Reply, Refusal>
    requires { S.Archive.sound store.now }
    ensures arising { M.Arising (S.Archive.origin store.now) result }
    ensures does { M.Does
        (beside certifier.old
        (S.Archive.means store.now) (S.Store.room store.now))
        (M.call_read by.stamp by.number granule (of_kind granule)) (M.outcome (λ y. y) result)
        (beside certifier.new
        (S.Archive.means store.now) (S.Store.room store.now)) }
{
    let kind = RosterKind::of(granule);
    let entry = certifier.read(store, by, granule, &kind)?;
    Ok(Reply::Read(entry.map(|entry| kind.encode(entry))))
}

// A write as the roster makes it, of the granule's kind.
fn write_code<S: Store>(
    certifier: &mut Certifier,
    store: &S,
    by: Attempt,
    granule: usize,
    code: u64,
) -> Result<Reply, Refusal>
    requires { S.Archive.sound store.now }
    ensures arising { M.Arising (λ _ _. ⊥) result }
    ensures does { M.Does
        (beside certifier.old
        (S.Archive.means store.now) (S.Store.room store.now))
        (M.call_write by.stamp by.number granule code (of_kind granule))
        (M.outcome (λ y. y) result)
        (beside certifier.new
        (S.Archive.means store.now) (S.Store.room store.now)) }
{
    certifier.write(store, by, granule, &RosterKind::of(granule), code)?;
    Ok(Reply::Recorded)
}

// Puts an event to the certifier.
pub fn put_event<S: Store>(
    certifier: &mut Certifier,
    store: &mut S,
    event: &Event<'_>,
) -> Result<Reply, Refusal>
    requires { S.Archive.sound store.old }
    ensures sound { S.Archive.sound store.new }
    ensures lent { S.Store.lent store.new
        ≡ S.Store.lent store.old }
    ensures same { OnErr result (store.new ≡ store.old) }
    ensures put { PutEvent
        (sense S.Archive.means S.Store.room S.Archive.origin)
        certifier.old store.old (said event.now) result
        certifier.new store.new }
{
    match *event {
        Event::Open => Ok(Reply::Opened(certifier.open(store)?)),
        Event::Begin { stamp, .. } => {
            let attempt = certifier.begin(store, stamp)?;
            Ok(Reply::Began { attempt })
        }
        Event::Read {
            stamp,
            attempt,
            granule,
        } => read_code(certifier, store, by(stamp, attempt), granule),
        Event::Write {
            stamp,
            attempt,
            granule,
            code,
        } => write_code(certifier, store, by(stamp, attempt), granule, code),
        Event::Erase {
            stamp,
            attempt,
            granule,
        } => {
            certifier.erase(store, by(stamp, attempt), granule)?;
            Ok(Reply::Recorded)
        }
        Event::Commit { stamp, attempt } => {
            Ok(Reply::Committing(certifier.commit(store, by(stamp, attempt))?))
        }
        Event::RollBack { stamp, attempt } => {
            certifier.roll_back(store, by(stamp, attempt))?;
            Ok(Reply::RolledBack)
        }
        Event::Advance => Ok(Reply::Stepped(certifier.advance(store)?)),
        Event::Status { stamp } => Ok(Reply::Status(certifier.status(store, stamp)?)),
        Event::Notice { number } => {
            certifier.notice(store, number)?;
            Ok(Reply::Noticed)
        }
    }
}
