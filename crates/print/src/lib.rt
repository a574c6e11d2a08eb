// Writers into a lent buffer: bytes, numbers in decimal, byte strings in hex.
//
// Promises: each method of a `Writer` leaves its text in the buffer behind what is written there, and changes no other byte
// (`Puts`). Leaves to others: that the buffer has room, which the place behind a text needs in any case, so that no method
// tests it byte by byte; and what a line prints.
#![tactic(auto)]

ghost use Rattle.std.specs.Prelude.{◌≡◌, [], ◌∷◌, ◌+◌, ◌*◌, ◌<◌, length};
ghost use Rattle.print.specs.Print.{HasRoom, Puts, digits_most, hex_digit, hex_text, number_text};

// The byte for a field without content.
pub const DASH: u8 = b'-';

// ---- digits

// The byte of a digit.
fn digit(d: u64) -> u8
    requires { d < 10 }
    ensures { result ≡ 48 + d }
{
    b'0' + d as u8
}

// The byte of a hex digit.
fn hex_digit(d: u8) -> u8
    requires { d < 16 }
    ensures { result ≡ hex_digit d }
{
    if d < 10 { b'0' + d } else { b'A' + (d - 10) }
}

// How many digits a number has.
fn width(n: u64) -> usize
    ensures { result ≡ length (number_text n) }
{
    match n.checked_ilog10() {
        Some(k) => k as usize + 1,
        None => 1,
    }
}

// A number in decimal, in as many bytes as it has digits.
fn fill_digits(digits: &mut [u8], n: u64)
    requires { length digits.old ≡ length (number_text n) }
    ensures { digits.new ≡ number_text n }
{
    let mut m = n;
    for i in (0..digits.len()).rev() {
        digits[i] = digit(m % 10);
        m /= 10;
    }
}

// ---- the writer

// A lent buffer, and the place behind what is written in it. No `Display` for numbers and hex: `write_str` and `write!` answer a
// `Result` of which they say only the Ok case, so that `put_number` and `put_hex`, which cannot fail, could fail.
// No invariant holds the room: it shrinks with each text, and how much a caller needs differs.
#[derive(Drop)]
pub struct Writer<'a> {
    pub out: &'a mut [u8],
    pub at: usize,
}

impl Writer<'_> {
    // One byte, by its place: `put_all` would need an array of it.
    pub fn put(&mut self, b: u8)
        requires { HasRoom self.old 1 }
        ensures { Puts self.old (b ∷ []) self.new }
    {
        self.out[self.at] = b;
        self.at += 1;
    }

    // Two bytes, for the same reason.
    pub fn put_pair(&mut self, a: u8, b: u8)
        requires { HasRoom self.old 2 }
        ensures { Puts self.old (a ∷ b ∷ []) self.new }
    {
        self.out[self.at] = a;
        self.out[self.at + 1] = b;
        self.at += 2;
    }

    // Bytes as they are.
    pub fn put_all(&mut self, bytes: &[u8])
        requires { HasRoom self.old (length bytes.now) }
        ensures { Puts self.old bytes.now self.new }
    {
        let end = self.at + bytes.len();
        self.out[self.at..end].copy_from_slice(bytes);
        self.at = end;
    }

    // A number in decimal, without leading zeros. There must be room for the longest one.
    pub fn put_number(&mut self, n: u64)
        requires { HasRoom self.old digits_most }
        ensures { Puts self.old (number_text n) self.new }
    {
        let end = self.at + width(n);
        fill_digits(&mut self.out[self.at..end], n);
        self.at = end;
    }

    // Bytes in hex, upper case. There must be room for two digits of each.
    pub fn put_hex(&mut self, bytes: &[u8])
        requires { HasRoom self.old (2 * length bytes.now) }
        ensures { Puts self.old (hex_text bytes.now) self.new }
    {
        for b in bytes {
            self.put_pair(hex_digit(*b / 16), hex_digit(*b % 16));
        }
    }
}
