// Text that is gathered in a buffer, so that a line or an answer is written as one: programs that
// append to the same file then mix no line. A buffer is made with room for the longest line; a word
// that has no room is left out whole.
ghost use Rattle.std.specs.Prelude.{◌≡◌, ℕ, ◌-◌, ◌≤◌, length, take};
ghost use Rattle.system.specs.Digits.{last_digits, IsDigitCount};

use crate::output::{plain, put_digits};
use system::{decimal, print};

#[derive(Drop)]
pub struct Line<'a> {
    room: &'a mut [u8],
    held: usize,
    ghost within: { held ≤ length room.now },
}

impl<'a> Line<'a> {
    ghost use Rattle.talk.specs.Gathered.{gathered, with_byte, with_digits, with_text};

    // Nothing yet, in the buffer.
    pub fn new(room: &'a mut [u8]) -> Line<'a>
        ensures { gathered result ≡ record { bytes = room.old; held = 0 } }
    {
        Line { room, held: 0 }
    }

    // What is gathered.
    pub fn as_slice(&self) -> &[u8]
        ensures { result.now ≡
            take (gathered self.now).held (gathered self.now).bytes }
    {
        &self.room[..self.held]
    }

    // How many bytes more there is room for.
    pub fn room_left(&self) -> usize
        ensures { result ≡
            length (gathered self.now).bytes - (gathered self.now).held }
    {
        self.room.len() - self.held
    }

    // Nothing again.
    pub fn clear(&mut self)
        ensures { gathered self.new ≡
            record { bytes = (gathered self.old).bytes; held = 0 } }
    {
        self.held = 0;
    }

    // One byte, where there is room for it.
    pub fn byte(&mut self, byte: u8)
        ensures { gathered self.new ≡ with_byte byte (gathered self.old) }
    {
        if self.held < self.room.len() {
            self.room[self.held] = byte;
            self.held += 1;
        }
    }

    // The text as it stands.
    pub fn text(&mut self, text: &[u8])
        ensures { gathered self.new ≡ with_text text.now (gathered self.old) }
    {
        if self.room_left() < text.len() {
            return;
        }
        let end = self.held + text.len();
        self.room[self.held..end].copy_from_slice(text);
        self.held = end;
    }

    // The number in decimal.
    pub fn number(&mut self, n: u64)
        ensures { (k : ℕ) → IsDigitCount 10 1 n k →
            gathered self.new ≡ with_text (last_digits 10 k n) (gathered self.old) }
    {
        let mut digits = [0u8; 20];
        let count = decimal(n, &mut digits);
        self.text(&digits[..count]);
    }

    // The bytes in hexadecimal, in lower case.
    pub fn bytes(&mut self, bytes: &[u8])
        ensures { gathered self.new ≡ with_digits bytes.now (gathered self.old) }
    {
        if self.room_left() / 2 < bytes.len() {
            return;
        }
        self.held += put_digits(bytes, &mut self.room[self.held..]);
    }

    // A file's name, with `?` for each byte that could break the line; at most 4,096 bytes of it.
    // No contract says which bytes these are; they are tested.
    pub fn name(&mut self, name: &[u8]) {
        let mut shown = [0u8; 4096];
        for (to, byte) in shown.iter_mut().zip(name) {
            *to = plain(*byte);
        }
        let n = name.len().min(4096);
        self.text(&shown[..n]);
    }

    // Writes what is gathered.
    pub fn print(&self, rt: &impl Print) {
        print(rt, self.as_slice());
    }
}
