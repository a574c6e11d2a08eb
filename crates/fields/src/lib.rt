// The fields of a line: parted by tabs, and numbers in decimal.
//
// Promises: what each field reads as, for any bytes; one that cannot be read has a number of its own. A buffer that
// is too short takes what it has room for, and the answer still counts all. Leaves to others: where a line begins
// (`text`), fields that are names (`names`) or bytes (`hex_bytes`), and which fields a line must have.
#![tactic(auto)]

ghost use Rattle.std.specs.Prelude.{◌≡◌, ◌+◌, ◌≤◌, length, drop};
ghost use Rattle.text.specs.Filled.{filled, fill};
ghost use Rattle.text.specs.Lines.{until};
ghost use Rattle.fields.specs.Fields.{tab};
ghost use Rattle.fields.specs.Numbers.{decimal_of, field_digits_most, number_from, token_of, tokens_of};

// The byte between two fields.
pub const TAB: u8 = b'\t';

// The most digits that a number may have.
const DIGITS_MOST: usize = 10;

// What a field reads as that is a single '-', and what one reads as that is neither that nor a number. No number of
// ten digits is so large. They are numbers, since `config_in` (`trace_claims`) has a configuration for every table of numbers,
// with these in it too.
pub const DASH: u64 = 10000000000;

pub const UNREADABLE: u64 = 10000000001;

// ---- fields

// The place past the last byte of the field that begins at `at`; the next field begins one behind that.
pub fn field_end(s: &[u8], at: usize) -> usize
    ensures { result ≡ at + until tab (drop at s.now) }
{
    text::find(s, at, TAB)
}

// ---- numbers

// The number that digits make, if all bytes are digits. More of them than a number may have would not fit.
fn digits(s: &[u8]) -> Option<u64>
    requires { length s.now ≤ field_digits_most }
    ensures { result ≡ number_from 0 s.now }
{
    let mut n: u64 = 0;
    for &d in s {
        if !d.is_ascii_digit() {
            return None;
        }
        n = n * 10 + u64::from(d - b'0');
    }
    Some(n)
}

// A number in decimal: 1 to 10 digits, without leading zeros.
pub fn decimal(s: &[u8]) -> Option<u64>
    ensures { result ≡ decimal_of s.now }
{
    if s.is_empty() || DIGITS_MOST < s.len() {
        return None;
    }
    if 1 < s.len() && s[0] == b'0' {
        return None;
    }
    digits(s)
}

// What a field reads as: a number, or the dash.
pub fn token(f: &[u8]) -> u64
    ensures { result ≡ token_of f.now }
{
    match f {
        b"-" => DASH,
        _ => decimal(f).unwrap_or(UNREADABLE),
    }
}

// What each field of a line reads as, in front of the buffer; answers how many fields there are.
pub fn tokens(line: &[u8], out: &mut [u64]) -> usize
    ensures { filled result out.new ≡ fill out.old (tokens_of line.now) }
{
    // Counted by hand, since the count is the answer.
    let mut k = 0;
    for field in line.split(|b| *b == TAB) {
        slices::put(out, k, token(field));
        k += 1;
    }
    k
}
