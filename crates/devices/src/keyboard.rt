// The keyboard's queue.
ghost use Rattle.std.specs.Prelude.{◌≡◌, ◌<◌};
ghost use Rattle.devices.specs.Queue.{no_keys, queue_add, took, queue_take};

use octets::parts;

/// The keys that wait, the oldest first, and how many they are. Bytes behind them are 0, so that equal queues are equal
/// structs.
// Stays: 64 places and a count, since the layer has no heap (docs/DECISIONS.md, "Forms that stay").
#[derive(Clone, Copy, Debug, PartialEq, Eq)]
pub struct Keyboard {
    pub keys: [u8; 64],
    pub held: usize,
}

/// What taking keys out gives: how many were taken, and the queue without them.
#[derive(Clone, Copy, Debug, PartialEq, Eq)]
pub struct Taken {
    pub count: usize,
    pub keyboard: Keyboard,
}

// Stores a key behind the keys that wait and moves their count. There has to be room.
fn store_key(queue: &mut Keyboard, key: u8)
    requires { queue.old.held < 64 }
    ensures { queue.new ≡ queue_add key queue.old }
{
    let at = queue.held;
    queue.keys[at] = key;
    queue.held = at + 1;
}

// The same on a queue by value: it lends a copy of its own.
// Stays: the queue by value, then one function over `&mut` (docs/DECISIONS.md, "Forms that stay").
fn stored(queue: Keyboard, key: u8) -> Keyboard
    requires { queue.held < 64 }
    ensures { result ≡ queue_add key queue }
{
    let mut next = queue;
    store_key(&mut next, key);
    next
}

impl Keyboard {
    /// How many keys the queue has room for.
    pub const ROOM: usize = 64;

    /// A queue with no key.
    #[tactic(auto, unfolding(crate::specs::Queue::no_keys))]
    pub fn new() -> Keyboard
        ensures { result ≡ no_keys }
    {
        Keyboard {
            keys: [0; Keyboard::ROOM],
            held: 0,
        }
    }

    /// Takes a key in at the back, or drops it when 64 are held.
    #[tactic(auto, unfolding(crate::specs::Queue::queue_add))]
    pub fn add(self, key: u8) -> Keyboard
        ensures { result ≡ queue_add key self }
    {
        if Keyboard::ROOM <= self.held {
            return self;
        }
        stored(self, key)
    }

    /// Takes the oldest keys out into the buffer: as many as are asked for, are held and fit.
    pub fn take(self, request: usize, buffer: &mut [u8]) -> Taken
        ensures { took result buffer.new ≡ queue_take request self buffer.old }
    {
        let held = self.held.min(Keyboard::ROOM);
        let count = request.min(buffer.len()).min(held);
        buffer[..count].copy_from_slice(&self.keys[..count]);
        let mut keys = [0; Keyboard::ROOM];
        keys[..Keyboard::ROOM - count].copy_from_slice(&self.keys[count..]);
        let keyboard = Keyboard {
            keys,
            held: held - count,
        };
        Taken { count, keyboard }
    }
}
