// What a line of a trace asks: a call of the channel, with its argument.
//
// Promises: the call of every line, or that it can't be read, for any bytes. Leaves to others: the call of a name
// (`command_names`), the configuration's lines (`config_line`, `pn_line`), and carrying the call out (`dispatch`).
#![tactic(auto)]

ghost use Rattle.std.specs.Prelude.{◌≡◌};
ghost use Rattle.std.proofs.lemmas.List.Edits.{sets};
ghost use Rattle.hex_bytes.specs.Hex.{hex_pairs};
ghost use Rattle.commands.specs.Commands.{argued, hex_count, reading, read_as};

use command_names::Command;
use names::Name;

// The bytes of a text in hex; answers how many, if it is hex throughout: twice the pairs are the bytes.
fn read_hex(a: &[u8], bytes: &mut [u8]) -> Option<usize>
    ensures count { result ≡ hex_count a.now }
    ensures stored { bytes.new ≡ sets bytes.old 0 (hex_pairs a.now) }
{
    let n = hex_bytes::hex_pairs(a, bytes);
    (2 * n == a.len()).then_some(n)
}

// A name with its argument.
fn argued(name: Option<Name>, a: &[u8], bytes: &mut [u8]) -> Option<Command>
    ensures { read_as result bytes.new ≡ argued name a.now bytes.old }
{
    match name {
        Some(Name::T) => command_names::tick_of(a),
        _ => command_names::with_bytes(name, read_hex(a, bytes)?),
    }
}

// What a line asks; its bytes go in front of the buffer.
pub fn read(l: &[u8], bytes: &mut [u8]) -> Option<Command>
    ensures { read_as result bytes.new ≡ reading l.now bytes.old }
{
    if blocks::LINE_MOST < l.len() {
        return None;
    }
    // By the place where the first field ends, as every reader of a line has it: a tab stands there, unless the line ends.
    let end = fields::field_end(l, 0);
    if end < l.len() {
        return argued(names::call(&l[..end]), &l[end + 1..], bytes);
    }
    command_names::alone(names::call(l))
}
