// Where start finds its files in the store: each is looked for once.
ghost use Rattle.std.specs.Prelude.{◌≡◌, ◌<◌};
ghost use Rattle.image.specs.Image.{spot};
ghost use Rattle.begin.specs.Files.{span_of, dseg_file, password_file, dseg_files, password_files};

use octets::span::Span;
use setup::Setup;
use std::array;

// The files that start needs, by their places in the store.
#[derive(Clone, Copy)]
pub(crate) struct Files {
    pub(crate) dsegs: [Span; 16],
    pub(crate) passwords: [Span; 8],
}

// Stays: no place for no file, as `span_of` has it, since a plan holds a span for each.
// Where the file with a path stands; the empty span where there is none.
#[tactic(auto, unfolding(crate::specs::Files::span_of))]
fn located(store: &[u8], path: &[u8]) -> Span
    ensures { result ≡ span_of (spot path.now store.now) }
{
    image::find(store, path).unwrap_or(Span::NONE)
}

// Where the file of dseg i stands.
#[tactic(auto, unfolding(crate::specs::Files::dseg_file, octets::specs::Spans::bytes_of), using(setup::specs::Values::get_or_any))]
fn dseg_file(setup: &Setup, text: &[u8], store: &[u8], i: usize) -> Span
    requires { i < 16 }
    ensures { result ≡ dseg_file setup.now text.now store.now i }
{
    if i < setup.dsegcount {
        located(store, setup.dsegs[i].path.of(text))
    } else {
        Span::NONE
    }
}

// Where the files of all dsegs stand.
fn dseg_files(setup: &Setup, text: &[u8], store: &[u8]) -> [Span; 16]
    ensures { result ≡ dseg_files setup.now text.now store.now }
{
    array::from_fn(|i| dseg_file(setup, text, store, i))
}

// Where partition p's password file stands, if the partition is active.
#[tactic(auto, unfolding(crate::specs::Files::password_file, crate::specs::Files::password_path))]
fn password_file(setup: &Setup, store: &[u8], p: usize) -> Span
    requires { p < 8 }
    ensures { result ≡ password_file setup.now store.now p }
{
    if setup.is_active(p) {
        let digit = b'0' + p as u8;
        let path = [b'/', b's', b'c', b'o', b's', b'/', b'p', b'w', digit];
        located(store, &path)
    } else {
        Span::NONE
    }
}

// Where the password files of all active partitions stand.
fn password_files(setup: &Setup, store: &[u8]) -> [Span; 8]
    ensures { result ≡ password_files setup.now store.now }
{
    array::from_fn(|p| password_file(setup, store, p))
}

impl Files {
    // All of them.
    pub(crate) fn find(setup: &Setup, text: &[u8], store: &[u8]) -> Self
        ensures dsegs { result.dsegs ≡ dseg_files setup.now text.now store.now }
        ensures passwords { result.passwords ≡ password_files setup.now store.now }
    {
        Files {
            dsegs: dseg_files(setup, text, store),
            passwords: password_files(setup, store),
        }
    }
}
