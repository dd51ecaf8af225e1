// What stands before every call, and the three events.
//
// No public function asks anything of its arguments: whatever the plan and the state hold, they are tested here first,
// and nothing that leads outside its area is followed.
#![tactic(auto)]

use checks::Refusal;
use state::{Plan, State};

pub mod events;
pub mod test;

ghost use Rattle.std.specs.Prelude.{◌≡◌};
ghost use Rattle.checks.specs.Refusals.{answer};
ghost use Rattle.guard.specs.Guard.{guard};

/// The refusal that every call begins with, BAD_STATE, STOPPED or BAD_PARTITION, or none where the call goes on.
/// `wrong`: a lent area is not as long as at start, or the calling partition's password table fails its test.
#[tactic(auto, unfolding(crate::specs::Guard::guard, checks::specs::Checks::after, checks::specs::Checks::refused))]
pub fn guard(plan: &Plan, state: &State, wrong: bool, partition: u32) -> Result<(), Refusal>
    ensures { answer result ≡ guard plan.now state.now wrong partition }
{
    if wrong || !test::good(plan, state) {
        return Err(Refusal::BadState);
    }
    if state.stopped {
        return Err(Refusal::Stopped);
    }
    if !plan.is_active(partition as usize) {
        return Err(Refusal::BadPartition);
    }
    Ok(())
}
