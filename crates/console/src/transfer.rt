// What a call asks of a device, and what refuses it.
ghost use Rattle.std.specs.Prelude.{◌≡◌, ◌||◌, eqb};
ghost use Rattle.checks.specs.Checks.{after};
ghost use Rattle.checks.specs.Refusals.{answer, number_of};
ghost use Rattle.devices.specs.Queue.{held};
ghost use Rattle.console.specs.Transfers.{is_screen, is_random, writes, failure_of, checks_on, checks_of};

use checks::{Refusal, number_behind};
use devices::keyboard::Keyboard;
use devices::screen::CELLS;
use state::{Device, Partition};

// Whether there is nothing to next-read: always so of a screen.
#[tactic(auto, unfolding(devices::specs::Queue::held))]
fn has_no_data(device: Device, part: Partition) -> bool
    ensures { result ≡ (is_screen device || eqb (held part.keyboard) 0) }
{
    match device {
        Device::Keyboard => part.keyboard.held.min(Keyboard::ROOM) == 0,
        Device::Screen => true,
    }
}

// The four calls on a device.
#[derive(Clone, Copy)]
pub(crate) enum Access {
    ReadNext,
    ReadRandom,
    WriteNext,
    WriteRandom,
}

impl Access {
    fn is_random(self) -> bool
        ensures { result ≡ is_random self }
    {
        matches!(self, Access::ReadRandom | Access::WriteRandom)
    }

    fn writes(self) -> bool
        ensures { result ≡ writes self }
    {
        matches!(self, Access::WriteNext | Access::WriteRandom)
    }

    // What a faulty device is told as.
    fn failure(self) -> Refusal
        ensures { number_of result ≡ failure_of self }
    {
        if self.writes() {
            Refusal::WriteFailure
        } else {
            Refusal::ReadFailure
        }
    }
}

// A call, as the caller asks it. Next-read and next-write have offset 0.
#[derive(Clone, Copy)]
pub(crate) struct Transfer {
    pub access: Access,
    pub partition: u32,
    pub major: u32,
    pub minor: u32,
    pub offset: u32,
    pub request: u32,
}

impl Transfer {
    // Tries the checks of a device call in their order, where its major number names this device; `room` is how long
    // the lent part is.
    #[tactic(auto, unfolding(checks::specs::Checks::after, checks::specs::Checks::refused, crate::specs::Transfers::checks_on))]
    fn check_on(self, device: Option<Device>, part: Partition, room: usize) -> Result<(), Refusal>
        ensures { answer result ≡ after 0 (checks_on device self part room) }
    {
        let Some(device) = device else {
            return Err(Refusal::BadMajor);
        };
        if self.access.is_random() && device == Device::Keyboard {
            return Err(Refusal::NotRandom);
        }
        if self.minor != self.partition {
            return Err(Refusal::BadMinor);
        }
        if self.access.writes() && device == Device::Keyboard {
            return Err(Refusal::NoWrite);
        }
        let offset = self.offset as usize;
        if offset > CELLS {
            return Err(Refusal::BadOffset);
        }
        if offset == CELLS {
            return Err(Refusal::DeviceEnd);
        }
        if room < self.request as usize {
            return Err(Refusal::BadBuffer);
        }
        if part.faulty(self.major) {
            return Err(self.access.failure());
        }
        if !self.access.writes() && !self.access.is_random() && has_no_data(device, part) {
            return Err(Refusal::NoData);
        }
        Ok(())
    }

    // The number of the first refusal that is due behind n, or n.
    #[tactic(auto, using(crate::proofs::Devices::refused_on))]
    pub(crate) fn number(self, n: u32, part: Partition, room: usize) -> u32
        ensures { result ≡ after n (checks_of self part room) }
    {
        number_behind(n, self.check_on(Device::of(self.major), part, room))
    }
}
