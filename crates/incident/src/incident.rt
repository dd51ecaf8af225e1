// The incident: a change of password that the store breaks off, at several bytes of the 84 that the file has: the
// answer, then logins with the old and the new password, and the same after a restart from the same store. Anna's
// digest is bytes 6 to 37 of the file: before it nothing has changed, behind it the new password stands, inside it
// neither does; and memory says each time what the store says.
use scene::Areas;
use std::io;
use terminal::Terminal;

// How many bytes the store takes: it stops before the digest, inside it, behind it, or takes all.
const TAKEN: [u32; 9] = [0, 6, 7, 20, 37, 38, 83, 84, 85];

pub fn run(rt: &HostRuntime) -> io::Result<()> {
    println!(rt; "\n== the incident: a change of password that breaks off")?;
    for taken in TAKEN {
        change(rt, taken)?;
    }
    Ok(())
}

// Anna changes her password from "first" to "fresh" on a store that takes so many bytes.
fn change(rt: &HostRuntime, taken: u32) -> io::Result<()> {
    let mut areas = Areas::new();
    let started = areas.start(Terminal::new());
    let anna = started
        .terminal
        .login(0, b"anna\0", b"first\0", &areas.tables);
    let changed = anna
        .terminal
        .set_password(0, b"fresh\0", taken, &mut areas.image, &mut areas.tables);
    let number = changed.number;
    println!(rt; "store takes {taken}: set-password: {number}")?;
    if areas.together() {
        println!(rt; "    memory's table is the store's file")?;
    } else {
        println!(rt; "    MEMORY AND STORE DIFFER")?;
    }
    let now = changed.terminal.logout(0).terminal;
    both(rt, "now", now, &areas.tables)?;
    let again = areas.start(now);
    both(rt, "after a restart", again.terminal, &areas.tables)
}

fn both(rt: &HostRuntime, when: &str, t: Terminal, tables: &[u8]) -> io::Result<()> {
    let old = t.login(0, b"anna\0", b"first\0", tables).number;
    let new = t.login(0, b"anna\0", b"fresh\0", tables).number;
    let bert = t.login(0, b"bert\0", b"second\0", tables).number;
    println!(rt; "    {when}: old {old}, new {new}, bert {bert}")
}
