// Numbers as text: figures written as bytes into a lent buffer, behind what was written before. Each call wants room.
// Assumes nothing.
#![tactic(auto)]

ghost use Rattle.std.specs.Prelude.{◌≡◌, [], ◌∷◌, ◌++◌, ◌≤◌, length};
ghost use Rattle.text.specs.Decimal.{digits, figure};
ghost use Rattle.text.specs.Writing.{Room, Writes};

// A lent buffer, and the place behind what was written.
#[derive(Drop)]
pub struct Writer<'a> {
    pub out: &'a mut [u8],
    pub at: usize,
}

// How many figures a number has.
fn figure_count(value: u32) -> usize
    ensures count { result ≡ length (digits value) }
    ensures upper_bound { result ≤ 10 }
{
    let mut rest = value;
    let mut count: usize = 1;
    // It counts divisions, so no range fits.
    while rest > 9 {
        rest /= 10;
        count += 1;
    }
    count
}

impl<'a> Writer<'a> {
    // One byte.
    pub fn byte(&mut self, b: u8)
        requires { Room 1 self.old }
        ensures { Writes (b ∷ []) 1 self.old self.new }
    {
        self.out[self.at] = b;
        self.at += 1;
    }

    // Bytes as they stand.
    pub fn bytes(&mut self, bytes: &[u8])
        requires { Room (length bytes.now) self.old }
        ensures { Writes bytes.now (length bytes.now) self.old self.new }
    {
        let end = self.at + bytes.len();
        self.out[self.at..end].copy_from_slice(bytes);
        self.at = end;
    }

    // A number from zero up, at most ten bytes: its figures are put from the last to the first.
    pub fn count(&mut self, value: u32)
        requires { Room 10 self.old }
        ensures { Writes (digits value) 10 self.old self.new }
    {
        let start = self.at;
        let end = start + figure_count(value);
        let mut left = value;
        for place in (start..end).rev() {
            self.out[place] = b'0' + (left % 10) as u8;
            left /= 10;
        }
        self.at = end;
    }

    // A number from zero up, and a byte behind it: at most eleven bytes.
    pub fn figure(&mut self, value: u32, behind: u8)
        requires { Room 11 self.old }
        ensures { Writes (digits value ++ (behind ∷ [])) 11 self.old self.new }
    {
        self.count(value);
        self.byte(behind);
    }

    // A signed number, at most eleven bytes: its figures, a minus sign before them where it is below zero.
    pub fn number(&mut self, value: i32)
        requires { Room 11 self.old }
        ensures { Writes (figure value) 11 self.old self.new }
    {
        if value < 0 {
            self.byte(b'-');
        }
        self.count(value.unsigned_abs());
    }
}
