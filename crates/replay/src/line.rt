// What a line says.
use super::account_calls::AccountCall;
use super::device_calls::DeviceCall;
use super::events::Event;
use super::looks::Look;
use super::memory_calls::MemoryCall;
use super::settings::Setting;
use super::stop_calls::StopCall;
use octets::parts;
use replay_text::{arguments, words};

/// The longest line; a longer one is bad, unless it begins with '#'.
pub const LONGEST: usize = 131200;

/// What is held of a line: a byte more than the longest, which shows that it is too long.
pub const HELD: usize = 131201;

/// A line that does nothing at all.
#[derive(Clone, Copy, Debug)]
pub struct BadLine;

/// A good line; the partition that calls stands before its call.
#[derive(Clone, Copy)]
pub enum Line<'a> {
    Setting(Setting<'a>),
    Start,
    Account(u32, AccountCall<'a>),
    Device(u32, DeviceCall<'a>),
    Memory(u32, MemoryCall<'a>),
    Stop(u32, StopCall<'a>),
    Event(Event),
    Look(Look),
}

/// The words behind a line's first one, and room for the bytes that they spell.
#[derive(Drop)]
pub struct Words<'a> {
    line: &'a [u8],
    at: usize,
    given: &'a mut [u8],
}

/// The numbers that words spell, in their order (a length for bytes, 1 or 0 for a choice), and the bytes, one behind
/// the other.
#[derive(Clone, Copy)]
pub struct Arguments<'a> {
    pub numbers: [u32; 6],
    pub bytes: &'a [u8],
}

impl<'a> Words<'a> {
    /// All that stands behind the first word.
    pub fn rest(self) -> &'a [u8] {
        parts::piece(self.line, self.at, self.line.len())
    }

    // Stays: letters for kinds, as `arguments::read` promises an answer for every pattern of bytes.
    /// One word for each kind: n a number, l the length of a buffer, a the length of an area, b bytes, y one byte,
    /// s `set` or `clear`, o `yes` or `no`.
    pub fn read(self, kinds: &[u8]) -> Result<Arguments<'a>, BadLine> {
        let Words { line, at, given } = self;
        let read = arguments::read(kinds, line, at, given).map_err(|_| BadLine)?;
        let numbers = read.numbers;
        let bytes = parts::piece(given, 0, read.held);
        Ok(Arguments { numbers, bytes })
    }

    /// No word.
    pub fn none(self) -> Result<(), BadLine> {
        self.read(b"")?;
        Ok(())
    }
}

impl<'a> Line<'a> {
    /// Reads a line. `given` is the room for the bytes that it spells.
    pub fn read(line: &'a [u8], given: &'a mut [u8]) -> Result<Line<'a>, BadLine> {
        let first = parts::piece(line, 0, words::before(b' ', line, 0));
        let at = first.len().saturating_add(1);
        let words = Words { line, at, given };
        match first {
            b"partitions" => Setting::partitions(words),
            b"soft" => Setting::soft(words),
            b"arena" => Setting::arena(words),
            b"tables" => Setting::tables(words),
            b"screens" => Setting::screens(words),
            b"text" => Setting::text(words),
            b"image" => Setting::image(words),
            b"clear" => Setting::clear(words),
            b"start" => start(words),
            b"login" => AccountCall::login(words),
            b"who" => AccountCall::who(words),
            b"logout" => AccountCall::logout(words),
            b"set_password" => AccountCall::set_password(words),
            b"read_next" => DeviceCall::read_next(words),
            b"write_next" => DeviceCall::write_next(words),
            b"read_random" => DeviceCall::read_random(words),
            b"write_random" => DeviceCall::write_random(words),
            b"load" => MemoryCall::load(words),
            b"store" => MemoryCall::store(words),
            b"flush" => MemoryCall::flush(words),
            b"configuration" => MemoryCall::configuration(words),
            b"shutdown" => StopCall::shutdown(words),
            b"powerdown" => StopCall::powerdown(words),
            b"key" => Event::key(words),
            b"attention" => Event::attention(words),
            b"fault" => Event::fault(words),
            b"show" => Look::show(words),
            b"screen" => Look::screen(words),
            _ => Err(BadLine),
        }
    }
}

// `start`
fn start(words: Words) -> Result<Line, BadLine> {
    words.none()?;
    Ok(Line::Start)
}
