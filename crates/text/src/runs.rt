// Bytes of one class, one behind the other, and the number that digits spell.
ghost use Rattle.std.specs.Prelude.{◌≡◌, ◌+◌, ◌-◌, ◌*◌, ◌≤◌, length, eqb, min, drop};
ghost use Rattle.std.specs.List.{take_while};
ghost use Rattle.text.specs.Bytes.{byte_at, is_digit, in_path, in_bare_path};
ghost use Rattle.text.specs.Tokens.{run, decimal_from};
ghost use Rattle.text.specs.Steps.{of_class};

use super::Class;

// One more than the largest number of a text.
const LIMIT: u64 = 4_294_967_296;

// Whether the byte b stands at place `at`.
pub fn is_at(text: &[u8], at: usize, b: u8) -> bool
    ensures { result ≡ eqb (byte_at text.now at) b }
{
    text.get(at).is_some_and(|there| *there == b)
}

fn is_digit(b: u8) -> bool
    ensures { result ≡ is_digit b }
{
    b.is_ascii_digit()
}

fn in_path(b: u8) -> bool
    ensures { result ≡ in_path b }
{
    (b' '..=b'~').contains(&b) && !matches!(b, b'"' | b'#')
}

fn in_bare_path(b: u8) -> bool
    ensures { result ≡ in_bare_path b }
{
    in_path(b) && !matches!(b, b' ' | b',' | b';' | b'{' | b'}')
}

// Whether the byte b is of this class.
fn of_class(class: Class, b: u8) -> bool
    ensures { result ≡ of_class class b }
{
    match class {
        Class::Digit => is_digit(b),
        Class::Bare => in_bare_path(b),
        Class::Quoted => in_path(b),
    }
}

// The bytes from place `at` on.
fn rest(text: &[u8], at: usize) -> &[u8]
    ensures { result.now ≡ drop at text.now }
{
    text.get(at..).unwrap_or(&[])
}

// How many bytes of this class stand at the start, one behind the other.
fn prefix(class: Class, text: &[u8]) -> usize
    ensures { result ≡ length (take_while (of_class class) text.now) }
{
    text.iter().take_while(|b| of_class(class, **b)).count()
}

// How many bytes of this class stand from place `at` on, one behind the other.
pub fn run(class: Class, text: &[u8], at: usize) -> usize
    ensures all { result ≡ run (of_class class) (drop at text.now) }
    ensures inside { result ≤ length text.now - at }
{
    prefix(class, rest(text, at))
}

// A number with one more digit, or LIMIT where that is less; a byte below the digits counts 0.
fn digit_more(value: u64, b: u8) -> u64
    ensures { result ≡ min (value * 10 + (b - 48)) 4294967296 }
{
    let digit = u64::from(b.saturating_sub(b'0'));
    value.saturating_mul(10).saturating_add(digit).min(LIMIT)
}

// The number that digits spell, or LIMIT where that is less.
pub fn decimal(digits: &[u8]) -> u64
    ensures { result ≡ min (decimal_from 0 digits.now) 4294967296 }
{
    digits.iter().fold(0, |value, b| digit_more(value, *b))
}
