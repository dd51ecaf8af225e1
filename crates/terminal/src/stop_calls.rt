//! The calls that stop the terminal.
ghost use Rattle.std.specs.Prelude.{◌≡◌};
ghost use Rattle.terminal.specs.Terminal.{outcome};
ghost use Rattle.terminal.specs.StopCalls.{shutdown, switched_off, powerdown};

use super::{Answer, Terminal};
use console::halt;

impl Terminal {
    /// Shows a message and the halt notice on the caller's screen, and stops.
    #[tactic(auto, unfolding(crate::specs::StopCalls::shutdown, crate::specs::StopCalls::stopped, crate::specs::Terminal::with_state, crate::specs::Terminal::differs, checks::specs::Settle::settle))]
    pub fn shutdown(mut self, partition: u32, message: &[u8], screens: &mut [u8]) -> Answer
        ensures { outcome result screens.new ≡ shutdown self partition message.now screens.old }
    {
        let n = self.guard(screens.len() != self.plan.kept.screens, partition);
        if n != 0 {
            return self.answer(n, 0);
        }
        let part = halt::halt(self.partition(partition), partition, message, screens);
        let off = self.state.off;
        self.state = self
            .state
            .with_part(partition as usize, part)
            .with_stop(off);
        self.answer(0, 0)
    }

    // Stops and marks the terminal as off; the screens stay.
    #[tactic(auto, unfolding(crate::specs::StopCalls::switched_off, crate::specs::Terminal::with_state, crate::specs::Terminal::differs, checks::specs::Settle::settle))]
    fn switch_off(mut self, partition: u32, screens: &[u8]) -> Answer
        ensures { outcome result screens.now ≡ switched_off self partition screens.now }
    {
        let n = self.guard(screens.len() != self.plan.kept.screens, partition);
        if n != 0 {
            return self.answer(n, 0);
        }
        self.state = self.state.with_stop(true);
        self.answer(0, 0)
    }

    /// Switches the power off where a call can do that, and else shuts down with no message.
    #[tactic(auto, unfolding(crate::specs::StopCalls::powerdown))]
    pub fn powerdown(mut self, partition: u32, screens: &mut [u8]) -> Answer
        ensures { outcome result screens.new ≡ powerdown self partition screens.old }
    {
        if self.plan.soft {
            return self.switch_off(partition, screens);
        }
        self.shutdown(partition, b"", screens)
    }
}
