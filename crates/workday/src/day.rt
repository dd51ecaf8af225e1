// A day: keys and logins, a sheet loaded, changed and flushed, a password changed, the screen, and the end of the
// shift.
use super::say;
use scene::Areas;
use std::io;
use terminal::Terminal;

pub fn run(rt: &HostRuntime) -> io::Result<()> {
    println!(rt; "\n== a working day")?;
    let mut areas = Areas::new();
    let started = areas.start(Terminal::new());
    let number = started.number;
    println!(rt; "    start {number}")?;
    let typed = keys(rt, started.terminal)?;
    let logged = logins(rt, typed, &areas.tables)?;
    sheets(rt, logged, &mut areas)?;
    let changed = passwords(rt, logged, &mut areas)?;
    evening(rt, changed, &mut areas.screens)
}

// Keys go where the focus is, which passes over the passive partition and comes round.
fn keys(rt: &HostRuntime, t: Terminal) -> io::Result<Terminal> {
    let typed = t
        .key(b'a')
        .key(b'b')
        .attention()
        .key(b'c')
        .attention()
        .key(b'd');
    let mut buffer = [b'-'; 4];
    let first = typed.read_next(0, 1, 0, 4, &mut buffer);
    say::counted(rt, "partition 0 reads", first)?;
    say::bytes(rt, "buffer", &buffer)?;
    let other = first.terminal.read_next(2, 1, 2, 4, &mut buffer);
    say::counted(rt, "partition 2 reads what was typed there", other)?;
    say::bytes(rt, "buffer", &buffer)?;
    Ok(other.terminal)
}

fn logins(rt: &HostRuntime, t: Terminal, tables: &[u8]) -> io::Result<Terminal> {
    let wrong = t.login(0, b"bert\0", b"first\0", tables);
    say::counted(rt, "login of bert with a wrong password", wrong)?;
    let anna = t.login(0, b"anna\0", b"first\0", tables);
    say::counted(rt, "login of anna", anna)?;
    Ok(anna.terminal)
}

fn sheets(rt: &HostRuntime, t: Terminal, areas: &mut Areas) -> io::Result<()> {
    let mut sheet = [b'-'; 24];
    let permissions = areas.permissions;
    let stored = t.store(permissions, 0, 256, 5, b"13, close 15", &mut areas.arena);
    say::line(rt, "store of a new line into the sheet", stored)?;
    let loaded = t.load(permissions, 2, 256, 0, &areas.arena, &mut sheet);
    say::line(rt, "partition 2 loads it", loaded)?;
    say::bytes(rt, "sheet", &sheet)?;
    say::bytes(rt, "file on the store", &areas.image[65..89])?;
    let most = t.flush(permissions, 0, 256, 23, &areas.arena, &mut areas.image);
    say::line(rt, "flush, one byte less than the file", most)?;
    say::bytes(rt, "file on the store", &areas.image[65..89])?;
    let all = t.flush(permissions, 0, 256, 24, &areas.arena, &mut areas.image);
    say::line(rt, "flush", all)
}

fn passwords(rt: &HostRuntime, t: Terminal, areas: &mut Areas) -> io::Result<Terminal> {
    let changed = t.set_password(0, b"fourth\0", 84, &mut areas.image, &mut areas.tables);
    say::line(rt, "anna's new password", changed)?;
    if areas.together() {
        println!(rt; "    memory's table is the store's file")?;
    } else {
        println!(rt; "    MEMORY AND STORE DIFFER")?;
    }
    let out = changed.terminal.logout(0);
    say::line(rt, "logout", out)?;
    let nobody = out.terminal;
    let old = nobody.login(0, b"anna\0", b"first\0", &areas.tables);
    say::counted(rt, "login with the old one", old)?;
    let new = nobody.login(0, b"anna\0", b"fourth\0", &areas.tables);
    say::counted(rt, "login with the new one", new)?;
    Ok(new.terminal)
}

fn evening(rt: &HostRuntime, t: Terminal, screens: &mut [u8; 6001]) -> io::Result<()> {
    let halted = t.shutdown(0, b"good night\0", screens);
    say::line(rt, "shutdown", halted)?;
    say::bytes(rt, "row 0", &screens[..14])?;
    say::bytes(rt, "row 1", &screens[80..94])?;
    say::line(rt, "logout", halted.terminal.logout(0))
}
