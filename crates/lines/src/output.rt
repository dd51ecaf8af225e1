// Bytes, and numbers in decimal.
ghost use Rattle.std.specs.Prelude.{◌≡◌, [], ◌∷◌, ◌+◌, ◌%◌, ◌≤◌, ◌<◌, min, length};

use octets::parts;

// No row is as long as this.
const MOST: usize = 9223372036854775808;

/// A row that is written, and the place in it that comes next. A place behind the row's end is one too: it counts what
/// did not fit.
#[derive(Drop)]
pub struct Output<'a> {
    pub row: &'a mut [u8],
    pub at: usize,
    ghost counted: { at ≤ 9223372036854775808 },
    ghost room: { length row.now < 9223372036854775808 },
}

impl<'a> Output<'a> {
    ghost use Rattle.lines.specs.Lines.{digits, decimal};
    ghost use Rattle.lines.specs.Wrote.{Put, most};

    /// What is written from place `at` of `row` on.
    #[tactic(auto, unfolding(crate::specs::Wrote::most))]
    pub fn new(row: &'a mut [u8], at: usize) -> Output<'a>
        ensures same_row { result.row.ghost_name ≡ row.entry.ghost_name }
        ensures as_it_is { result.row.now ≡ row.old }
        ensures place { result.at ≡ min at most }
    {
        let at = parts::least(at, MOST);
        Output { row, at }
    }

    /// A text as it stands.
    #[tactic(auto, unfolding(crate::specs::Wrote::most))]
    pub fn put(&mut self, text: &[u8])
        ensures { Put text.now self.old self.new }
    {
        parts::lay(text, self.row, self.at);
        self.at = parts::sum(self.at, text.len(), MOST);
    }

    // The last digit of v. Stays by hand, as the digits below: `format!` would allocate, and a row is what is written.
    fn put_digit(&mut self, v: u64)
        ensures { Put ((48 + v % 10) ∷ []) self.old self.new }
    {
        self.put(&[b'0' + (v % 10) as u8]);
    }

    // The last n digits of v, as far as it has them.
    fn put_digits(&mut self, n: usize, v: u64)
        ensures { Put (digits n v) self.old self.new }
    {
        if n == 0 {
            return;
        }
        if 10 <= v {
            self.put_digits(n - 1, v / 10);
        }
        self.put_digit(v);
    }

    /// v in decimal.
    pub fn put_decimal(&mut self, v: u64)
        ensures { Put (decimal v) self.old self.new }
    {
        self.put_digits(20, v);
    }
}
