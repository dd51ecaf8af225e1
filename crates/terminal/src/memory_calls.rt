//! The calls on segments, and the configuration database. The permission table comes by value beside the terminal.
ghost use Rattle.std.specs.Prelude.{◌≡◌};
ghost use Rattle.memory.specs.Rights.{reach};
ghost use Rattle.terminal.specs.Terminal.{outcome};
ghost use Rattle.terminal.specs.MemoryCalls.{load, store, flush, configuration};

use super::{Answer, Terminal};
use memory::{Reach, rights};

// Stays: the permission table by value, and the parameters one by one (docs/DECISIONS.md, "Forms that stay").
impl Terminal {
    // What a selector gives the calling partition.
    fn reach(&self, permissions: &[[u8; 8]; 32], partition: u32, selector: u32) -> Reach
        ensures { result ≡ reach self.now.plan permissions.now partition selector }
    {
        rights::reach(&self.plan, permissions, partition, selector)
    }

    /// Copies bytes of a segment into the buffer.
    #[tactic(auto, unfolding(crate::specs::MemoryCalls::load, crate::specs::Terminal::unmoved, crate::specs::Terminal::differs))]
    pub fn load(
        mut self,
        permissions: [[u8; 8]; 32],
        partition: u32,
        selector: u32,
        offset: u32,
        arena: &[u8],
        buffer: &mut [u8],
    ) -> Answer
        ensures { outcome result buffer.new ≡ load self permissions partition selector offset arena.now buffer.old }
    {
        let n = self.guard(arena.len() != self.plan.kept.arena, partition);
        let reach = self.reach(&permissions, partition, selector);
        let number = memory::load(n, reach, offset, arena, buffer);
        self.answer(number, 0)
    }

    /// Copies bytes over those of a segment.
    #[tactic(auto, unfolding(crate::specs::MemoryCalls::store, crate::specs::Terminal::unmoved, crate::specs::Terminal::differs))]
    pub fn store(
        mut self,
        permissions: [[u8; 8]; 32],
        partition: u32,
        selector: u32,
        offset: u32,
        bytes: &[u8],
        arena: &mut [u8],
    ) -> Answer
        ensures { outcome result arena.new ≡ store self permissions partition selector offset bytes.now arena.old }
    {
        let n = self.guard(arena.len() != self.plan.kept.arena, partition);
        let reach = self.reach(&permissions, partition, selector);
        let number = memory::store(n, reach, offset, bytes, arena);
        self.answer(number, 0)
    }

    /// Writes a dseg back over its file; the store takes the first `taken` bytes.
    #[tactic(auto, unfolding(crate::specs::MemoryCalls::flush, crate::specs::Terminal::unmoved, crate::specs::Terminal::differs))]
    pub fn flush(
        mut self,
        permissions: [[u8; 8]; 32],
        partition: u32,
        selector: u32,
        taken: u32,
        arena: &[u8],
        store: &mut [u8],
    ) -> Answer
        ensures { outcome result store.new ≡ flush self permissions partition selector taken arena.now store.old }
    {
        let kept = self.plan.kept;
        let n = self.guard(
            store.len() != kept.store || arena.len() != kept.arena,
            partition,
        );
        let reach = self.reach(&permissions, partition, selector);
        let number = memory::flush(n, reach, taken, arena, store);
        self.answer(number, 0)
    }

    /// Writes the configuration database into the buffer.
    #[tactic(auto, unfolding(crate::specs::MemoryCalls::configuration, crate::specs::Terminal::unmoved, crate::specs::Terminal::differs))]
    pub fn configuration(
        mut self,
        permissions: [[u8; 8]; 32],
        partition: u32,
        store: &[u8],
        buffer: &mut [u8],
    ) -> Answer
        ensures { outcome result buffer.new ≡ configuration self permissions partition store.now buffer.old }
    {
        let n = self.guard(store.len() != self.plan.kept.store, partition);
        let number = database::configuration(n, &self.plan, &permissions, partition, store, buffer);
        self.answer(number, 0)
    }
}
