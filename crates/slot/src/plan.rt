// What the next advance does, and the slots after it.
ghost use Rattle.std.specs.Prelude.{◌≡◌};
ghost use Rattle.model.specs.Slots as M;
ghost use Rattle.model.specs.Plans.{plan_of, plan_check, after_plan};
ghost use Rattle.slot.specs.Means.{slot_of, slots_of};

use crate::conflict::first_conflict;
use crate::search::{change, change_each, enter_section, oldest};
use crate::slot::Slot;
use model::{Mark, Phase, Plan};

impl Slot {
    // The first granule written here that the junior noted before its mark.
    pub(crate) fn conflict_with(&self, junior: &Slot) -> Option<usize>
        ensures { result ≡ M.conflict (slot_of self.now).writes
            (M.marked_notes junior.now.mark (slot_of junior.now).notes) }
    {
        let writes = self.writes.as_slice();
        let notes = junior.notes.as_slice();
        let n = match junior.mark {
            Mark::Marked(n) => n.min(notes.len()),
            _ => 0,
        };
        first_conflict(writes, &notes[..n])
    }
}

// In phase 4: the oldest junior that is marked and not yet checked.
fn plan_check(slots: &[Slot], validator: &Slot) -> Plan
    ensures { result ≡ plan_check (slot_of validator.now)
        (M.oldest M.due (slots_of slots.now)) }
{
    match oldest(slots, Slot::is_due) {
        None => Plan::Done {
            stamp: validator.stamp,
        },
        Some(junior) => match validator.conflict_with(junior) {
            Some(granule) => Plan::Again {
                stamp: junior.stamp,
                granule,
            },
            None => Plan::Pass {
                stamp: junior.stamp,
            },
        },
    }
}

pub fn plan(slots: &[Slot]) -> Plan
    ensures { result ≡ plan_of (slots_of slots.now) }
{
    match oldest(slots, Slot::is_validating) {
        None => Plan::Idle,
        Some(slot) => match slot.phase {
            Phase::Section => match slot.next_write() {
                None => Plan::Mark { stamp: slot.stamp },
                Some(write) => Plan::Put {
                    stamp: slot.stamp,
                    write,
                },
            },
            _ => plan_check(slots, slot),
        },
    }
}

// If the oldest live transaction waits, it enters its section.
pub(crate) fn wake(slots: &mut [Slot])
    ensures { slots_of slots.new ≡ M.woken (slots_of slots.old) }
{
    if let Some(slot) = oldest(slots, Slot::is_live)
        && slot.phase == Phase::Waiting
    {
        let stamp = slot.stamp;
        enter_section(slots, stamp);
    }
}

// Frees the slot of the transaction with this stamp, then wakes.
pub fn release(slots: &mut [Slot], stamp: u64)
    ensures { slots_of slots.new
        ≡ M.woken (M.adjust stamp (λ x. M.free_slot) (slots_of slots.old)) }
{
    change(slots, stamp, Slot::release);
    wake(slots);
}

// The slots after the advance.
pub fn apply(slots: &mut [Slot], plan: Plan)
    ensures { slots_of slots.new
        ≡ after_plan plan (slots_of slots.old) }
{
    match plan {
        Plan::Idle => {}
        Plan::Put { stamp, .. } => change(slots, stamp, Slot::count_put),
        Plan::Mark { stamp } => {
            change_each(slots, |slot| slot.mark_younger(stamp));
            change(slots, stamp, Slot::start_checking);
        }
        Plan::Again { stamp, .. } => change(slots, stamp, Slot::restart),
        Plan::Pass { stamp } => change(slots, stamp, Slot::pass),
        Plan::Done { stamp } => {
            change_each(slots, Slot::unmark);
            change(slots, stamp, Slot::commit);
            wake(slots);
        }
    }
}
