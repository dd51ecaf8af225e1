// A screen's row, for reading.
ghost use Rattle.std.specs.Prelude.{◌≡◌};
ghost use Rattle.octets.specs.Lists.{write_at};
ghost use Rattle.lines.specs.Wrote.{Put};
ghost use Rattle.replay_text.specs.Shown.{shown_byte, shown};

use super::MOST;
use lines::Output;
use octets::parts;

// A byte that prints as itself, 32 to 126, or '.'.
#[tactic(auto, unfolding(crate::specs::Shown::shown_byte))]
fn shown_byte(b: u8) -> u8
    ensures { result ≡ shown_byte b }
{
    if 32 <= b && b <= 126 { b } else { b'.' }
}

// Writes the cells over `to`, from place `at` on, as far as there is room.
fn show(cells: &[u8], to: &mut [u8], at: usize)
    ensures { to.new ≡ write_at at (shown cells.now) to.old }
{
    let start = at.min(to.len());
    let count = cells.len().min(to.len() - start);
    // Stays by place: of a row that a `zip` goes over for writing, nothing is known afterwards.
    for i in 0..count {
        to[start + i] = shown_byte(cells[i]);
    }
}

/// The cells, those outside 32 to 126 as '.'.
pub fn put_cells(out: &mut Output, cells: &[u8])
    ensures { Put (shown cells.now) out.old out.new }
{
    show(cells, out.row, out.at);
    out.at = parts::sum(out.at, cells.len(), MOST);
}
