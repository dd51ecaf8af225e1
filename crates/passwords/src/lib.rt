// The password file of a partition: a row of records, each with a digest and a name.
//
// Any bytes can be asked: no function requires anything of them. A record that the file's end cuts off goes to the
// end, and counts as one.
#![tactic(auto)]

use octets::span::Span;
use octets::{parts, search};

mod account;
mod walk;

ghost use Rattle.std.specs.Prelude.{◌≡◌, take};
ghost use Rattle.octets.specs.Lists.{over};
ghost use Rattle.rows.specs.Records.{chunks};
ghost use Rattle.passwords.specs.PasswordFile.{named, well_formed, sound, count, find, name_at, digest_at, with_digest};

use walk::Records;

const MOST_RECORDS: usize = 64;

/// Where a name stands: in which record, and the place of its digest.
#[derive(Clone, Copy, Debug, PartialEq, Eq)]
pub struct Entry {
    /// Counted from 0.
    pub number: usize,
    /// The digest stands from this place of the file on.
    pub digest: usize,
}

/// What a search for a name gives.
#[derive(Clone, Copy, Debug, PartialEq, Eq)]
pub struct Lookup {
    pub entry: Option<Entry>,
    /// How many records were read: up to and with the named one, or all.
    pub count: usize,
}

/// The first record with this name.
pub fn find(file: &[u8], name: &[u8]) -> Lookup
    ensures { result ≡ find name.now file.now }
{
    let mut records = Records::new(file);
    while let Some(reading) = records.next() {
        if search::same(account::name(reading.span.of(file)), name) {
            let entry = Entry {
                number: reading.number,
                digest: reading.span.place + account::DIGEST_START,
            };
            return Lookup {
                entry: Some(entry),
                count: records.count,
            };
        }
    }
    Lookup {
        entry: None,
        count: records.count,
    }
}

// Whether a record has this name.
#[tactic(auto, unfolding(crate::specs::FileLaws::is_found), using(crate::proofs::Told::named_told))]
fn named(file: &[u8], name: &[u8]) -> bool
    ensures { result ≡ named name.now (chunks file.now) }
{
    find(file, name).entry.is_some()
}

/// Whether every record obeys its kind, there are at most 64, and no name comes twice.
pub fn well_formed(file: &[u8]) -> bool
    ensures { result ≡ well_formed file.now }
{
    let mut records = Records::new(file);
    while let Some(reading) = records.next() {
        if MOST_RECORDS <= reading.number {
            return false;
        }
        let entry = reading.span.of(file);
        if !account::obeys(entry) {
            return false;
        }
        let rest = parts::piece(file, records.at, file.len());
        if named(rest, account::name(entry)) {
            return false;
        }
    }
    true
}

/// Whether a table in memory can be read: every record ends inside it and has room for a digest and a name, and there
/// are at most 64.
pub fn sound(file: &[u8]) -> bool
    ensures { result ≡ sound file.now }
{
    let mut records = Records::new(file);
    while let Some(reading) = records.next() {
        if MOST_RECORDS <= reading.number {
            return false;
        }
        if !account::shaped(reading.span.of(file)) {
            return false;
        }
    }
    true
}

/// How many records there are.
pub fn count(file: &[u8]) -> usize
    ensures { result ≡ count file.now }
{
    let mut records = Records::new(file);
    while let Some(_reading) = records.next() {}
    records.count
}

/// The name in record i; the empty part where there is no such record.
#[tactic(auto, using(crate::specs::FileLaws::record_part), unfolding(crate::specs::PasswordFile::name_at))]
pub fn name_at(file: &[u8], i: usize) -> &[u8]
    ensures { result.now ≡ name_at i file.now }
{
    account::name(walk::locate(file, i).of(file))
}

/// The digest in record i; the empty part where there is no such record.
#[tactic(auto, using(crate::specs::FileLaws::record_part), unfolding(crate::specs::PasswordFile::digest_at))]
pub fn digest_at(file: &[u8], i: usize) -> &[u8]
    ensures { result.now ≡ digest_at i file.now }
{
    account::digest(walk::locate(file, i).of(file))
}

/// Puts a new digest into record i; does nothing where there is no such record.
pub fn set_digest(file: &mut [u8], i: usize, new: &[u8])
    ensures { file.new ≡ with_digest i new.now file.old }
{
    let span = walk::locate(file, i);
    let end = span.place + span.length;
    account::change(&mut file[span.place..end], new);
}

/// Lays the first k bytes of `new` over the start of `old`: what a store that takes k bytes has of a file written from
/// its first byte on.
#[tactic(auto, unfolding(octets::specs::Lists::write_at, octets::specs::Lists::part))]
pub fn write_first(new: &[u8], old: &mut [u8], k: usize)
    ensures { old.new ≡ over (take k new.now) old.old }
{
    parts::lay(parts::piece(new, 0, k), old, 0);
}
