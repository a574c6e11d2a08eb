// What the PN line of a trace says: PN, F, N, P, keep-awake, mask.
//
// Promises: for any bytes, whether the line is the PN line, whether it can be read, and the configuration with what its
// fields give; that the line's first 81 bytes say the same as the line (proofs/Cut). Leaves to others: line 1
// (`config_line`), and the rules of a configuration (`rules`).
#![tactic(auto)]

ghost use Rattle.std.specs.Prelude.{◌≡◌};
ghost use Rattle.settings.specs.Settings.{given};
ghost use Rattle.pn_line.specs.PnLine.{
  behind_tab,
  is_mask,
  is_partial,
  mask_text,
  partial_reads,
  read_partial,
  with_partial,
};

use config::{Config, PDU_MOST, Partial, Times};
use names::Name;

// How many fields the line has.
const PN_FIELDS: usize = 6;

// Is the first field PN? So is line 2 known for a PN line, readable or not.
pub fn is_partial(l: &[u8]) -> bool
    ensures { result ≡ is_partial l.now }
{
    settings::name_of(l) == Some(Name::Pn)
}

// What stands behind the first tab; nothing where there is none, since no part begins past the end.
fn behind_tab<'a>(l: &'a [u8]) -> &'a [u8]
    ensures { result.now ≡ behind_tab l.now }
{
    let end = fields::field_end(l, 0);
    slices::part(l, end + 1, l.len())
}

// What stands behind the fifth tab.
#[tactic(auto, unfolding(crate::specs::PnLine::mask_text))]
fn mask_text<'a>(l: &'a [u8]) -> &'a [u8]
    ensures { result.now ≡ mask_text l.now }
{
    behind_tab(behind_tab(behind_tab(behind_tab(behind_tab(l)))))
}

// Do so many pairs make a mask of so many bytes: at least one pair, and twice the pairs are the bytes? No product, which could
// overflow.
#[tactic(auto, unfolding(crate::specs::PnLine::is_mask))]
fn is_mask(pairs: usize, bytes: usize) -> bool
    ensures { result ≡ is_mask pairs bytes }
{
    pairs != 0 && pairs <= bytes && bytes - pairs == pairs
}

#[tactic(auto, unfolding(crate::specs::PnLine::partial_reads))]
fn partial_reads(t: &[u64; settings::CFG_FIELDS]) -> bool
    ensures { result ≡ partial_reads t.now }
{
    let all: &[u64] = t;
    settings::all_numbers(&all[1..4]) & settings::is_flag(t[4])
}

// The configuration with PN on, and the mask of so many bytes.
#[tactic(auto, unfolding(crate::specs::PnLine::with_partial))]
fn with_partial(
    c: Config,
    t: &[u64; settings::CFG_FIELDS],
    pairs: usize,
    mask: &[u8; PDU_MOST],
) -> Config
    ensures { result ≡ with_partial c t.now pairs mask.now }
{
    Config {
        times: Times {
            reset: t[3],
            ..c.times
        },
        pn: Partial {
            on: true,
            start: t[1],
            length: t[2],
            awake: t[4] == 1,
            masked: pairs as u64,
            mask: *mask,
        },
        ..c
    }
}

// The configuration that a line's fields give behind that of line 1, whether the line can be read or not.
pub fn fields_partial(c: Config, l: &[u8]) -> Config
    ensures { result ≡ (read_partial c l.now).config }
{
    let mut t = [0u64; settings::CFG_FIELDS];
    fields::tokens(l, &mut t);
    let mut mask = [0u8; PDU_MOST];
    let pairs = hex_bytes::hex_pairs(mask_text(l), &mut mask);
    with_partial(c, &t, pairs, &mask)
}

// The configuration that a PN line gives, behind that of line 1.
pub fn read_partial(c: Config, l: &[u8]) -> Option<Config>
    ensures { result ≡ given (read_partial c l.now) }
{
    let mut t = [0u64; settings::CFG_FIELDS];
    let n = fields::tokens(l, &mut t);
    let mut mask = [0u8; PDU_MOST];
    let hex = mask_text(l);
    let pairs = hex_bytes::hex_pairs(hex, &mut mask);
    if settings::is_line(l, Some(Name::Pn), PN_FIELDS, n)
        & partial_reads(&t)
        & is_mask(pairs, hex.len())
    {
        Some(with_partial(c, &t, pairs, &mask))
    } else {
        None
    }
}
