// What both lines of a trace's configuration share: what a field may read as, and when a line is one of a name.
//
// Promises: for any bytes and numbers, these tests; that a line's first 81 bytes say the same as the line, name and
// length (proofs/Cut). Leaves to others: line 1 (`config_line`), the PN line behind it (`pn_line`), and which line of the
// trace it is (`trace_line`).
#![tactic(auto)]

ghost use Rattle.std.specs.Prelude.{◌≡◌};
ghost use Rattle.settings.specs.Settings.{all_numbers, is_flag, is_line, is_number, name_of};

use names::Name;

// How many fields line 1 has. A table of as many is enough for the PN line too, which has fewer: a line with more fields
// is known by their count.
pub const CFG_FIELDS: usize = 15;

// ---- what a field may read as

pub fn is_number(x: u64) -> bool
    ensures { result ≡ is_number x }
{
    x < fields::DASH
}

// 0 or 1.
pub fn is_flag(x: u64) -> bool
    ensures { result ≡ is_flag x }
{
    x < 2
}

// Is each of these a number?
pub fn all_numbers(s: &[u64]) -> bool
    ensures { result ≡ all_numbers s.now }
{
    s.iter().all(|x| is_number(*x))
}

// ---- lines

// The name that a line's first field spells.
pub fn name_of(l: &[u8]) -> Option<Name>
    ensures { result ≡ name_of l.now }
{
    names::call(slices::part(l, 0, fields::field_end(l, 0)))
}

// Is this a line of that name, or of none, with as many fields as it must have, and not too long?
pub fn is_line(l: &[u8], name: Option<Name>, must: usize, count: usize) -> bool
    ensures { result ≡ is_line l.now name must count }
{
    (l.len() <= blocks::LINE_MOST) & (name_of(l) == name) & (count == must)
}
