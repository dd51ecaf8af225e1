// Next-write under a name that C links:
// size_t virpulens_put_all(uint8_t *cells, size_t length, size_t cursor, const uint8_t *bytes, size_t count);
// The measurements of bench/ call it.
#![tactic(auto)]

ghost use Rattle.std.specs.Prelude.{◌≡◌};
ghost use Rattle.devices.specs.Screen.{screen, put_all, on_screen};

use devices::screen;

#[unsafe(no_mangle)]
pub extern "C" fn virpulens_put_all(cells: &mut [u8], cursor: usize, bytes: &[u8]) -> usize
    ensures { screen cells.new result ≡ on_screen (put_all bytes.now) (screen cells.old cursor) }
{
    screen::put_all(cells, cursor, bytes)
}
