//! Login, who, set-password and the table test, over one login record, one password table and one password file.
//!
//! Each call gets n, the number of the checks that all calls share, and goes on with its own: the first that refuses
//! decides.
#![tactic(auto)]

use checks::{Refusal, number_behind};
use octets::{parts, search};
use passwords::{Entry, Lookup};
use state::{Login, LoginRecord};

mod strings;
mod users;

ghost use Rattle.std.specs.Prelude.{Some, ◌≡◌, [], ◌∷◌, ◌++◌, ◌<◌, ◌^◌};
ghost use Rattle.checks.specs.Checks.{after};
ghost use Rattle.checks.specs.Refusals.{answer};
ghost use Rattle.octets.specs.Lists.{over};
ghost use Rattle.passwords.specs.PasswordFile.{find};
ghost use Rattle.accounts.specs.Strings.{string_of};
ghost use Rattle.accounts.specs.Users.{readable, user_name, place_of};
ghost use Rattle.checks.specs.Told.{told};
ghost use Rattle.accounts.specs.Login.{attempt, digested, tried_entry, tried, login_checks, login};
ghost use Rattle.accounts.specs.Who.{who_checks, who};
ghost use Rattle.accounts.specs.SetPassword.{changed, file_image, on_store, in_memory, written, set_checks, set_password};

/// What a login answers: its number (0: logged in), the work count, and who is logged in then.
// Stays: a public answer with its number, since number and count stand together (docs/DECISIONS.md, "Forms that stay").
#[derive(Clone, Copy, Debug, PartialEq, Eq)]
pub struct Attempt {
    pub number: u32,
    pub count: usize,
    pub login: LoginRecord,
}

// A password's digest, and the work count with it.
// Stays: the work count is handed on (docs/DECISIONS.md, "Forms that stay").
#[derive(Clone, Copy)]
struct Digested {
    digest: [u8; 32],
    count: usize,
}

const DIGEST_LENGTH: usize = 32;

// A name of 32 bytes and its zero.
const NAME_ROOM: usize = 33;

/// Whether a table can be read, and the user's place is a record of it.
#[tactic(auto, unfolding(crate::specs::Users::readable))]
pub fn readable(held: LoginRecord, table: &[u8]) -> bool
    ensures { result ≡ readable held table.now }
{
    passwords::sound(table) && users::placed(held, passwords::count(table))
}

// The digest of a password, which takes one block, since a string has at most 32 bytes. Nothing else raises the count
// by a block.
fn digest_counted(password: &[u8], count: usize) -> Digested
    requires { count < 2 ^ 63 }
    ensures { result ≡ digested (string_of password.now) count }
{
    Digested {
        digest: sha256::digest(strings::string_of(password)),
        count: count + 1,
    }
}

// AUTH_FAILURE, with the work that was done. Who is logged in stays.
fn failed(held: LoginRecord, count: usize) -> Attempt
    ensures { result ≡ attempt 300 count held }
{
    Attempt {
        number: Refusal::AuthFailure.number(),
        count,
        login: held,
    }
}

// Compares a password's digest with the one that stands in the record found.
#[tactic(auto, unfolding(crate::specs::Login::digested))]
fn compared(held: LoginRecord, table: &[u8], password: &[u8], entry: Entry, count: usize) -> Attempt
    requires { count < 2 ^ 63 }
    ensures { result ≡ tried_entry held table.now (string_of password.now) count (Some entry) }
{
    let work = digest_counted(password, count);
    let wanted = parts::piece(table, entry.digest, DIGEST_LENGTH);
    if search::same(&work.digest, wanted) {
        let login = LoginRecord {
            user: Login::User {
                place: entry.number,
            },
        };
        return Attempt {
            number: 0,
            count: work.count,
            login,
        };
    }
    failed(held, work.count)
}

// Looks the name up, and only then takes the password's digest.
fn tried(held: LoginRecord, table: &[u8], name: &[u8], password: &[u8]) -> Attempt
    ensures { result ≡ tried held table.now (string_of password.now) (find (string_of name.now) table.now) }
{
    let Lookup { entry, count } = passwords::find(table, strings::string_of(name));
    match entry {
        Some(entry) => compared(held, table, password, entry, count),
        None => failed(held, count),
    }
}

// What refuses a login. Both strings are checked before the name is looked up.
#[tactic(auto, unfolding(checks::specs::Checks::after, checks::specs::Checks::refused, crate::specs::Login::login_checks))]
fn login_check(held: LoginRecord, name: &[u8], password: &[u8]) -> Result<(), Refusal>
    ensures { answer result ≡ after 0 (login_checks held name.now password.now) }
{
    if users::is_user(held) {
        return Err(Refusal::LoginBusy);
    }
    if !strings::is_string(name) {
        return Err(Refusal::InvalidString);
    }
    if !strings::is_string(password) {
        return Err(Refusal::InvalidString);
    }
    Ok(())
}

// Stays a number, n: each call promises an answer for every one (docs/DECISIONS.md, "Forms that stay").

/// Logs a user in by name and password, strings that end at their first zero.
pub fn login(n: u32, held: LoginRecord, table: &[u8], name: &[u8], password: &[u8]) -> Attempt
    ensures { result ≡ login n held table.now name.now password.now }
{
    let number = number_behind(n, login_check(held, name, password));
    if number != 0 {
        return Attempt {
            number,
            count: 0,
            login: held,
        };
    }
    tried(held, table, name, password)
}

// Writes the user's name and a zero; for nobody the zero alone.
fn tell(held: LoginRecord, table: &[u8], buffer: &mut [u8])
    ensures { buffer.new ≡ over (user_name held.user table.now ++ (0 ∷ [])) buffer.old }
{
    let name = users::user_name(held, table);
    parts::lay(name, buffer, 0);
    parts::lay(&[0], buffer, name.len());
}

// What refuses a who.
#[tactic(auto, unfolding(checks::specs::Checks::after, checks::specs::Checks::refused, crate::specs::Who::who_checks))]
fn who_check(buffer: &[u8]) -> Result<(), Refusal>
    ensures { answer result ≡ after 0 (who_checks buffer.now) }
{
    if buffer.len() < NAME_ROOM {
        return Err(Refusal::BadBuffer);
    }
    Ok(())
}

/// Writes the name of who is logged in, and a zero, into the buffer; for nobody the zero alone.
pub fn who(n: u32, held: LoginRecord, table: &[u8], buffer: &mut [u8]) -> u32
    ensures { told result buffer.new ≡ who n held table.now buffer.old }
{
    let fault = number_behind(n, who_check(buffer));
    if fault != 0 {
        return fault;
    }
    tell(held, table, buffer);
    0
}

// WRITE_FAILURE where the store takes less than the whole file.
#[tactic(auto, unfolding(crate::specs::SetPassword::written))]
fn written(taken: u32, file: &[u8]) -> Result<(), Refusal>
    ensures { answer result ≡ written taken file.now }
{
    if (taken as usize) < file.len() {
        return Err(Refusal::WriteFailure);
    }
    Ok(())
}

// Makes the file image of the table in memory: the digest of the new password goes into the user's record.
fn renew(held: LoginRecord, password: &[u8], table: &mut [u8])
    ensures { table.new ≡ file_image (place_of held.user) (string_of password.now) table.old }
{
    let digest = sha256::digest(strings::string_of(password));
    let place = users::place_of(held);
    passwords::set_digest(table, place, &digest);
}

// Writes the image to the store, as far as that takes it, and takes back into memory what the store then has.
fn save(taken: u32, file: &mut [u8], table: &mut [u8])
    ensures { (file.new ≡ on_store taken table.old file.old)
        × (table.new ≡ in_memory (on_store taken table.old file.old) table.old) }
{
    passwords::write_first(table, file, taken as usize);
    parts::lay(file, table, 0);
}

// What refuses a set-password.
#[tactic(auto, unfolding(checks::specs::Checks::after, checks::specs::Checks::refused, crate::specs::SetPassword::set_checks))]
fn set_check(held: LoginRecord, password: &[u8]) -> Result<(), Refusal>
    ensures { answer result ≡ after 0 (set_checks held password.now) }
{
    if !users::is_user(held) {
        return Err(Refusal::NoLogin);
    }
    if !strings::is_string(password) {
        return Err(Refusal::InvalidString);
    }
    Ok(())
}

/// Gives the user a new password. The store takes the first `taken` bytes of what is written; 203 where that is not the
/// whole file.
pub fn set_password(
    n: u32,
    held: LoginRecord,
    password: &[u8],
    taken: u32,
    file: &mut [u8],
    table: &mut [u8],
) -> u32
    ensures { changed result file.new table.new ≡ set_password n held password.now taken file.old table.old }
{
    let fault = number_behind(n, set_check(held, password));
    if fault != 0 {
        return fault;
    }
    let outcome = written(taken, file);
    renew(held, password, table);
    save(taken, file, table);
    number_behind(0, outcome)
}
