// Questions about a slice of slots, and the change of one of them or of each. Functions over a
// slice, since the slots are an array of plain records in the certifier. Most ask about a
// transaction, by its stamp, and a granule: a pair of these would be made for the call alone.
ghost use Rattle.std.specs.Prelude.{◌≡◌, ◌<◌, find, length, IfSome, OnErr, Some};
ghost use Rattle.std.specs.List.{position_from};
ghost use Rattle.std.specs.Option.{option_map};
ghost use Rattle.std.specs.Fn.{FnOnceReturnsAtMut, FnReturnsAt};
ghost use Rattle.std.specs.Result.{is_ok, is_err};
ghost use Rattle.model.specs.Slots as M;
ghost use Rattle.model.specs.Worlds.{slot_with};
ghost use Rattle.slot.specs.Means.{slot_of, slots_of};
ghost use Rattle.slot.specs.Changes.{Changed, ChangedEach, FnReturnsAtMut, noted, recorded};
ghost use Rattle.slot.specs.Tests.{join, writes_beside, IsOldest};

use crate::slot::Slot;
use bounded::Full;
use model::{Content, Mark, Phase};

impl Slot {
    pub(crate) fn is_free(&self) -> bool
        ensures { result ≡ M.is_free (slot_of self.now) }
    {
        self.phase == Phase::Free
    }

    // Whether the slot is held by the transaction with this stamp.
    pub(crate) fn holds(&self, stamp: u64) -> bool
        ensures { result ≡ M.holds stamp (slot_of self.now) }
    {
        !self.is_free() && self.stamp == stamp
    }

    pub(crate) fn is_live(&self) -> bool
        ensures { result ≡ M.is_live (slot_of self.now) }
    {
        self.phase.is_live()
    }

    // Whether a live transaction is older than the one with this stamp.
    fn is_older_live(&self, stamp: u64) -> bool
        ensures { result ≡ M.older_live stamp (slot_of self.now) }
    {
        self.phase.is_live() && self.stamp < stamp
    }

    // In its section or checking.
    pub(crate) fn is_validating(&self) -> bool
        ensures { result ≡ M.validating (slot_of self.now) }
    {
        matches!(self.phase, Phase::Section | Phase::Checking)
    }

    // Marked and still to be checked.
    pub(crate) fn is_due(&self) -> bool
        ensures { result ≡ M.due (slot_of self.now) }
    {
        self.phase.is_live() && matches!(self.mark, Mark::Marked(_))
    }

    // Whether another transaction than the one with this stamp writes the granule here.
    fn writes_beside(&self, stamp: u64, granule: usize) -> bool
        ensures { result ≡ writes_beside stamp granule (slot_of self.now) }
    {
        self.stamp != stamp && self.own(granule).is_some()
    }

    // Whether it is another's open section that writes the granule.
    fn is_other_section(&self, stamp: u64, granule: usize) -> bool
        ensures { result ≡ M.other_section stamp granule (slot_of self.now) }
    {
        self.phase == Phase::Section && self.writes_beside(stamp, granule)
    }

    // Whether it is another running or waiting transaction that writes the granule.
    fn is_other_writer(&self, stamp: u64, granule: usize) -> bool
        ensures { result ≡ M.other_writer stamp granule (slot_of self.now) }
    {
        self.phase.is_running_or_waiting() && self.writes_beside(stamp, granule)
    }
}

// The elder of two, the first where they are of one age.
fn elder<'a>(best: Option<&'a Slot>, slot: &'a Slot) -> Option<&'a Slot>
    ensures { option_map (λ x. slot_of x.now) result
        ≡ join (option_map (λ x. slot_of x.now) best.entry) (Some (slot_of slot.now)) }
{
    match best {
        Some(first) if first.stamp <= slot.stamp => best,
        _ => Some(slot),
    }
}

// The oldest of those that pass a test. A loop, since the library's `min_by_key` does not promise
// the first of those of one age.
pub(crate) fn oldest<F: Fn(&Slot) -> bool>(slots: &[Slot], test: F) -> Option<&Slot>
    requires { F.IsAlwaysCallable test }
    ensures { IsOldest (FnReturnsAt F.Fn test)
        slots.now (option_map (λ x. slot_of x.now) result) }
{
    let mut best: Option<&Slot> = None;
    for slot in slots {
        if test(slot) {
            best = elder(best, slot);
        }
    }
    best
}

// The place of the slot that has this stamp.
pub fn find(slots: &[Slot], stamp: u64) -> Option<usize>
    ensures within { IfSome result (λ i. i < length slots.now) }
    ensures first { result ≡ position_from (λ x. M.holds stamp (slot_of x)) 0 slots.now }
{
    slots.iter().position(|slot| slot.holds(stamp))
}

// The place of the first free slot.
pub fn free_place(slots: &[Slot]) -> Option<usize>
    ensures within { IfSome result (λ i. i < length slots.now) }
    ensures first { result ≡ position_from (λ x. M.is_free (slot_of x)) 0 slots.now }
{
    slots.iter().position(|slot| slot.is_free())
}

// The slot that has this stamp.
pub fn held(slots: &[Slot], stamp: u64) -> Option<&Slot>
    ensures { option_map (λ x. x.now) result ≡ find (λ x. M.holds stamp (slot_of x)) slots.now }
{
    slots.iter().find(|slot| slot.holds(stamp))
}

// How many live transactions are older than the one with this stamp.
#[tactic(auto, using(crate::proofs::Chains::tally_of))]
pub fn older_live(slots: &[Slot], stamp: u64) -> usize
    ensures { result ≡ M.tally (M.older_live stamp) (slots_of slots.now) }
{
    slots
        .iter()
        .filter(|slot| slot.is_older_live(stamp))
        .count()
}

// How many other running or waiting transactions write the granule.
#[tactic(auto, using(crate::proofs::Chains::tally_of))]
pub fn other_writers(slots: &[Slot], stamp: u64, granule: usize) -> usize
    ensures { result ≡ M.tally (M.other_writer stamp granule) (slots_of slots.now) }
{
    slots
        .iter()
        .filter(|slot| slot.is_other_writer(stamp, granule))
        .count()
}

// The stamp of another's open section that writes the granule.
pub fn other_section(slots: &[Slot], stamp: u64, granule: usize) -> Option<u64>
    ensures { result ≡ option_map (λ x. x.stamp)
        (M.oldest (M.other_section stamp granule) (slots_of slots.now)) }
{
    let other = oldest(slots, |slot| slot.is_other_section(stamp, granule))?;
    Some(other.stamp)
}

// Gives the first free slot to a new transaction. With no free slot nothing changes.
#[tactic(auto, using(crate::proofs::Places::taking))]
pub fn take_free(slots: &mut [Slot], stamp: u64) -> Result<(), Full>
    ensures full { is_err result ≡ M.full (slots_of slots.old) }
    ensures placed { slots_of slots.new ≡ M.place (M.new_slot stamp) (slots_of slots.old) }
    ensures same { OnErr result (slots.new ≡ slots.old) }
{
    let i = free_place(slots).ok_or(Full)?;
    slots[i].begin(stamp);
    Ok(())
}

// Notes a granule in the slot that has this stamp. With no room for a note nothing changes.
#[tactic(auto, using(crate::proofs::Places::noting))]
pub fn note(slots: &mut [Slot], stamp: u64, granule: usize) -> Result<(), Full>
    ensures took { is_ok result ≡ M.note_fits granule (slot_with (slots_of slots.old) stamp).notes }
    ensures after { slots_of slots.new ≡ M.adjust stamp (noted granule) (slots_of slots.old) }
{
    match find(slots, stamp) {
        Some(i) => slots[i].note(granule),
        None => Ok(()),
    }
}

// What a commit, a write and an erase do to the slot of their transaction. `change`, which takes
// any change, is for this crate alone.

// Records a write in the slot that has this stamp, where it fits.
pub fn record(slots: &mut [Slot], stamp: u64, granule: usize, content: Content)
    ensures { slots_of slots.new
        ≡ M.adjust stamp (recorded granule content) (slots_of slots.old) }
{
    change(slots, stamp, |slot| slot.record(granule, content));
}

pub fn enter_section(slots: &mut [Slot], stamp: u64)
    ensures { slots_of slots.new ≡ M.adjust stamp M.in_section (slots_of slots.old) }
{
    change(slots, stamp, Slot::enter_section);
}

pub fn wait(slots: &mut [Slot], stamp: u64)
    ensures { slots_of slots.new ≡ M.adjust stamp (M.in_phase 2) (slots_of slots.old) }
{
    change(slots, stamp, Slot::wait);
}

// Changes the slot that has this stamp, and no other.
pub(crate) fn change<F: FnOnce(&mut Slot)>(slots: &mut [Slot], stamp: u64, change: F)
    requires { F.IsAlwaysCallable change }
    ensures { Changed stamp (λ x y. FnOnceReturnsAtMut F.FnOnce change x tt y)
        slots.old slots.new }
{
    if let Some(i) = find(slots, stamp) {
        change(&mut slots[i]);
    }
}

// Changes each slot.
pub(crate) fn change_each<F: Fn(&mut Slot)>(slots: &mut [Slot], change: F)
    requires { F.IsAlwaysCallable change }
    ensures { ChangedEach (FnReturnsAtMut F.Fn change) slots.old slots.new }
{
    for slot in slots.iter_mut() {
        change(slot);
    }
}
