// The three events: a key, the attention key, a fault flag. Once the terminal is stopped, or in a bad state, they are
// ignored.
ghost use Rattle.std.specs.Prelude.{◌≡◌};
ghost use Rattle.guard.specs.Events.{running, key, behind, seek, attention, fault};

use super::test;
use state::{PARTITIONS, Plan, State};

// Neither stopped nor in a bad state.
#[tactic(auto, unfolding(crate::specs::Events::running))]
fn running(plan: &Plan, state: &State) -> bool
    ensures { result ≡ running plan.now state.now }
{
    test::good(plan, state) && !state.stopped
}

/// A key goes to the focused partition.
#[tactic(auto, unfolding(crate::specs::Events::key, crate::specs::Events::typed))]
pub fn key(plan: Plan, state: State, byte: u8) -> State
    ensures { result ≡ key byte plan state }
{
    if !running(&plan, &state) {
        return state;
    }
    let part = state.part(state.focus);
    let typed = part.with_keyboard(part.keyboard.add(byte));
    state.with_part(state.focus, typed)
}

// The partition behind p, round.
#[tactic(auto, unfolding(crate::specs::Events::behind))]
fn behind(plan: &Plan, p: usize) -> usize
    ensures { result ≡ behind plan.now p }
{
    let next = p.saturating_add(1);
    if next < plan.count {
        return next;
    }
    0
}

// The first active partition behind p, round: p itself where there is no other.
#[tactic(auto, using(crate::specs::EventLaws::turns))]
fn seek(plan: &Plan, p: usize) -> usize
    ensures { result ≡ seek 8 plan.now (behind plan.now p) }
{
    let mut at = behind(plan, p);
    for _looked in 0..PARTITIONS {
        if plan.is_active(at) {
            return at;
        }
        at = behind(plan, at);
    }
    at
}

/// The attention key moves the focus to the next active partition, round.
#[tactic(auto, unfolding(crate::specs::Events::attention))]
pub fn attention(plan: Plan, state: State) -> State
    ensures { result ≡ attention plan state }
{
    if !running(&plan, &state) {
        return state;
    }
    state.with_focus(seek(&plan, state.focus))
}

/// A device's fault flag is set or cleared; for a passive or unknown partition, or another device, nothing happens.
// Stays a number, `device`: a host passes any, and only two of them are devices'.
#[tactic(auto, unfolding(crate::specs::Events::fault))]
pub fn fault(plan: Plan, state: State, partition: u32, device: u32, set: bool) -> State
    ensures { result ≡ fault partition device set plan state }
{
    let p = partition as usize;
    let heard = running(&plan, &state) && plan.is_active(p);
    if !heard {
        return state;
    }
    let changed = state.part(p).with_fault(device, set);
    state.with_part(p, changed)
}
