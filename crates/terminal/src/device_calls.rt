//! The calls on the caller's keyboard and screen.
// Stays: the parameters one by one, as the public calls have them (docs/DECISIONS.md, "Forms that stay").
ghost use Rattle.std.specs.Prelude.{◌≡◌};
ghost use Rattle.terminal.specs.Terminal.{outcome, answer, with_partition};
ghost use Rattle.terminal.specs.DeviceCalls.{read_next, read_random, write_next, write_random};

use super::{Answer, Terminal};
use console::{Reply, next, random};

impl Terminal {
    // The answer, with the calling partition as the call leaves it.
    fn replied(self, partition: u32, reply: Reply) -> Answer
        ensures { result ≡ answer reply.number reply.count (with_partition partition reply.part self) }
    {
        self.with_partition(partition, reply.part)
            .answer(reply.number, reply.count)
    }

    /// Takes the oldest keys out of the keyboard's queue into the buffer.
    #[tactic(auto, unfolding(crate::specs::DeviceCalls::read_next, crate::specs::DeviceCalls::replied, crate::specs::Terminal::differs))]
    pub fn read_next(
        mut self,
        partition: u32,
        major: u32,
        minor: u32,
        request: u32,
        buffer: &mut [u8],
    ) -> Answer
        ensures { outcome result buffer.new ≡ read_next self partition major minor request buffer.old }
    {
        let n = self.guard(false, partition);
        let part = self.partition(partition);
        let reply = next::read_next(n, part, partition, major, minor, request, buffer);
        self.replied(partition, reply)
    }

    /// Copies cells of the screen into the buffer.
    #[tactic(auto, unfolding(crate::specs::DeviceCalls::read_random, crate::specs::DeviceCalls::replied, crate::specs::Terminal::differs))]
    pub fn read_random(
        mut self,
        partition: u32,
        major: u32,
        minor: u32,
        offset: u32,
        request: u32,
        screens: &[u8],
        buffer: &mut [u8],
    ) -> Answer
        ensures { outcome result buffer.new ≡ read_random self partition major minor offset request screens.now buffer.old }
    {
        let n = self.guard(screens.len() != self.plan.kept.screens, partition);
        let part = self.partition(partition);
        let reply = random::read_random(
            n, part, partition, major, minor, offset, request, screens, buffer,
        );
        self.replied(partition, reply)
    }

    /// Puts bytes on the screen from the cursor on.
    #[tactic(auto, unfolding(crate::specs::DeviceCalls::write_next, crate::specs::DeviceCalls::replied, crate::specs::Terminal::differs))]
    pub fn write_next(
        mut self,
        partition: u32,
        major: u32,
        minor: u32,
        request: u32,
        bytes: &[u8],
        screens: &mut [u8],
    ) -> Answer
        ensures { outcome result screens.new ≡ write_next self partition major minor request bytes.now screens.old }
    {
        let n = self.guard(screens.len() != self.plan.kept.screens, partition);
        let part = self.partition(partition);
        let reply = next::write_next(n, part, partition, major, minor, request, bytes, screens);
        self.replied(partition, reply)
    }

    /// Copies bytes over cells of the screen.
    #[tactic(auto, unfolding(crate::specs::DeviceCalls::write_random, crate::specs::DeviceCalls::replied, crate::specs::Terminal::differs))]
    pub fn write_random(
        mut self,
        partition: u32,
        major: u32,
        minor: u32,
        offset: u32,
        request: u32,
        bytes: &[u8],
        screens: &mut [u8],
    ) -> Answer
        ensures { outcome result screens.new ≡ write_random self partition major minor offset request bytes.now screens.old }
    {
        let n = self.guard(screens.len() != self.plan.kept.screens, partition);
        let part = self.partition(partition);
        let reply = random::write_random(
            n, part, partition, major, minor, offset, request, bytes, screens,
        );
        self.replied(partition, reply)
    }
}
