// Bytes by their text in hex, upper case.
//
// Promises: for any text, the bytes of its leading pairs of digits in the lent buffer, and how many pairs there are. A
// buffer that is too short takes what it has room for, and the answer still counts all. Leaves to others: whether a text
// must be hex throughout (`commands`, `pn_line`).
#![tactic(auto)]

ghost use Rattle.std.specs.Prelude.{◌≡◌};
ghost use Rattle.text.specs.Filled.{filled, fill};
ghost use Rattle.hex_bytes.specs.Hex.{hex_value, hex_pairs};

// The value of a hex digit in upper case. 16 for any other byte and no `Option`, as `hex_value` of specs/Hex has it.
fn hex_value(d: u8) -> u8
    ensures { result ≡ hex_value d }
{
    match d {
        b'0'..=b'9' => d - b'0',
        b'A'..=b'F' => d - b'A' + 10,
        _ => 16,
    }
}

// The bytes of the leading hex pairs, in front of the buffer; answers how many pairs there are. A text is hex
// throughout exactly if twice the answer is its length.
pub fn hex_pairs(s: &[u8], out: &mut [u8]) -> usize
    ensures { filled result out.new ≡ fill out.old (hex_pairs s.now) }
{
    // Counted by hand, since the count is the answer.
    let mut n = 0;
    let mut rest = s;
    while let [h, l, behind @ ..] = rest {
        let high = hex_value(*h);
        let low = hex_value(*l);
        if 15 < high || 15 < low {
            return n;
        }
        slices::put(out, n, high * 16 + low);
        n += 1;
        rest = behind;
    }
    n
}
