// The screen's cells and its cursor.
ghost use Rattle.std.specs.Prelude.{◌≡◌, ◌<◌, length};
ghost use Rattle.devices.specs.Screen.{screen, blanks, scrolled, next_row, put_all, on_screen, random_read};
ghost use Rattle.devices.specs.Screen.{random_write, transfer};
ghost use Rattle.devices.specs.Screen.{put as Screen·put};
ghost use Rattle.devices.specs.Screen.{moved as Screen·moved};

use octets::parts;

/// How many cells a row has.
pub const COLUMNS: usize = 80;

/// How many rows a screen has.
pub const ROWS: usize = 25;

/// How many cells a screen has.
pub const CELLS: usize = 2000;

const _: () = prove!(CELLS == ROWS * COLUMNS);

/// What a blanked cell holds.
pub const SPACE: u8 = b' ';

/// The byte that moves the cursor one column back.
pub const BACKSPACE: u8 = 8;

// Where the last row begins.
const LAST_ROW: usize = 1920;

/// Makes every cell a space.
pub fn blank(cells: &mut [u8])
    ensures { cells.new ≡ blanks (length cells.old) }
{
    cells.fill(SPACE);
}

// Moves every row up by one and blanks the last. Stays: that the cells are a screen's is asked here and in the two
// functions below. With an array of CELLS in place of the slice the proofs of this one and of `put` did not close.
fn scroll(cells: &mut [u8])
    requires { length cells.old ≡ 2000 }
    ensures { cells.new ≡ scrolled cells.old }
{
    cells.copy_within(COLUMNS.., 0);
    blank(&mut cells[LAST_ROW..]);
}

// Column 0 of the next row, which is made by scrolling behind the last.
#[tactic(auto, unfolding(crate::specs::Screen::next_row, crate::specs::Screen::row))]
fn next_row(cells: &mut [u8], cursor: usize) -> usize
    requires cells_len { length cells.old ≡ 2000 }
    requires cursor_bound { cursor < 2000 }
    ensures { screen cells.new result ≡ next_row (screen cells.old cursor) }
{
    let row = cursor / COLUMNS;
    if row + 1 < ROWS {
        return COLUMNS * (row + 1);
    }
    scroll(cells);
    LAST_ROW
}

// Puts one byte on what is a screen.
#[tactic(auto, unfolding(crate::specs::Screen::put, crate::specs::Screen::placed, crate::specs::Screen::advance, crate::specs::Screen::back, crate::specs::Screen::row, crate::specs::Screen::column))]
fn put_one(cells: &mut [u8], cursor: usize, byte: u8) -> usize
    requires cells_len { length cells.old ≡ 2000 }
    requires cursor_bound { cursor < 2000 }
    ensures { screen cells.new result ≡ Screen·put byte (screen cells.old cursor) }
{
    let column = cursor % COLUMNS;
    match byte {
        b'\n' => next_row(cells, cursor),
        b'\r' => cursor - column,
        BACKSPACE if column == 0 => cursor,
        BACKSPACE => cursor - 1,
        _ => {
            cells[cursor] = byte;
            if column + 1 < COLUMNS {
                return cursor + 1;
            }
            next_row(cells, cursor)
        }
    }
}

/// Puts one byte: 10, 13 and 8 move the cursor, another is placed where it stands and it advances. What is no screen,
/// not 2,000 cells or a cursor behind the last, is left as it is.
#[tactic(auto, unfolding(crate::specs::Screen::on_screen, crate::specs::Screen::is_screen))]
pub fn put(cells: &mut [u8], cursor: usize, byte: u8) -> usize
    ensures { screen cells.new result ≡ on_screen (Screen·put byte) (screen cells.old cursor) }
{
    if cells.len() != CELLS || CELLS <= cursor {
        return cursor;
    }
    put_one(cells, cursor, byte)
}

/// Puts bytes, one after the other.
#[tactic(auto, unfolding(crate::specs::Screen::on_screen, crate::specs::Screen::is_screen))]
pub fn put_all(cells: &mut [u8], cursor: usize, bytes: &[u8]) -> usize
    ensures { screen cells.new result ≡ on_screen (put_all bytes.now) (screen cells.old cursor) }
{
    if cells.len() != CELLS || CELLS <= cursor {
        return cursor;
    }
    let mut at = cursor;
    for &byte in bytes {
        at = put_one(cells, at, byte);
    }
    at
}

// How many of `request` cells from `offset` on are moved, of `size` cells and to or from a lent part of `room` bytes.
#[tactic(auto, unfolding(crate::specs::Screen::moved))]
fn moved(size: usize, offset: usize, request: usize, room: usize) -> usize
    ensures { result ≡ Screen·moved size offset request room }
{
    request.min(size.saturating_sub(offset)).min(room)
}

/// Copies cells from `offset` on into the buffer, and says how many.
pub fn read_at(cells: &[u8], offset: usize, request: usize, buffer: &mut [u8]) -> usize
    ensures { transfer result buffer.new ≡ random_read offset request cells.now buffer.old }
{
    let count = moved(cells.len(), offset, request, buffer.len());
    parts::lay(parts::piece(cells, offset, count), buffer, 0);
    count
}

/// Copies bytes over the cells from `offset` on, and says how many.
pub fn write_at(cells: &mut [u8], offset: usize, request: usize, bytes: &[u8]) -> usize
    ensures { transfer result cells.new ≡ random_write offset request bytes.now cells.old }
{
    let count = moved(cells.len(), offset, request, bytes.len());
    parts::lay(parts::piece(bytes, 0, count), cells, offset);
    count
}
