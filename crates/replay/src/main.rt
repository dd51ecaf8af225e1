// Reads a replay text from standard input and writes the terminal's answers (docs/REPLAY.md).
//
// Memory is fixed: all that a run holds stands in the rows that `main` makes, so that neither a long line nor a long
// text takes more. A read or a write that fails ends the program with an error.
#![tactic(auto)]

use answers::Answers;
use areas::{Area, UNTOUCHED};
use input::Input;
use replay_text::letters::Letters;
use session::Session;
use std::io;
use terminal::Terminal;

mod account_calls;
mod answers;
mod areas;
mod device_calls;
mod events;
mod input;
mod line;
mod looks;
mod memory_calls;
mod session;
mod settings;
mod stop_calls;

// A proved loop has to end, and nothing says that the input does: so the turns are counted, up to a number that no run
// uses up.
fn main(rt: HostRuntime) -> io::Result<()> {
    let mut piece = [0; 65536];
    let mut line = [0; line::HELD];
    let mut text = [0; 20000];
    let mut store = [0; 65536];
    let mut arena = [UNTOUCHED; 65536];
    let mut tables = [UNTOUCHED; 65536];
    let mut screens = [UNTOUCHED; 65536];
    let mut buffer = [UNTOUCHED; 4096];
    let mut given = [0; 8192];
    let mut waiting = [0; 65536];
    let mut session = Session {
        terminal: Terminal::new(),
        accepted: false,
        partitions: Letters {
            count: 1,
            active: [true, false, false, false, false, false, false, false],
        },
        soft: false,
        text: Area::new(&mut text, 0),
        store: Area::new(&mut store, 0),
        arena: Area::new(&mut arena, 4096),
        tables: Area::new(&mut tables, 4096),
        screens: Area::new(&mut screens, 16000),
        permissions: [[0; 8]; 32],
        buffer: Area::new(&mut buffer, 0),
        answers: Answers::new(&mut waiting),
        lines: 0,
    };
    let mut input = Input::new(Area::new(&mut piece, 0), Area::new(&mut line, 0));
    for _ in 0..u64::MAX {
        let Some(line) = input.next_line(&rt, &mut session.answers)? else {
            break;
        };
        session.obey(line, &mut given);
        session.answers.spare(&rt)?;
    }
    session.answers.flush(&rt)
}
