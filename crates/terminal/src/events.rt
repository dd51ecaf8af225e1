//! The events. Each takes the terminal and hands back the next one.
ghost use Rattle.std.specs.Prelude.{◌≡◌};
ghost use Rattle.terminal.specs.Events.{key, attention, fault};

use super::Terminal;
use guard::events;

impl Terminal {
    /// A key goes to the focused partition.
    #[tactic(auto, unfolding(crate::specs::Events::key, crate::specs::Terminal::with_state))]
    pub fn key(mut self, byte: u8) -> Self
        ensures { result ≡ key byte self }
    {
        self.state = events::key(self.plan, self.state, byte);
        self
    }

    /// The attention key moves the focus to the next active partition.
    #[tactic(auto, unfolding(crate::specs::Events::attention, crate::specs::Terminal::with_state))]
    pub fn attention(mut self) -> Self
        ensures { result ≡ attention self }
    {
        self.state = events::attention(self.plan, self.state);
        self
    }

    /// A device's fault flag is set or cleared: 1 the keyboard, 2 the screen.
    #[tactic(auto, unfolding(crate::specs::Events::fault, crate::specs::Terminal::with_state))]
    pub fn fault(mut self, partition: u32, device: u32, set: bool) -> Self
        ensures { result ≡ fault partition device set self }
    {
        self.state = events::fault(self.plan, self.state, partition, device, set);
        self
    }
}
