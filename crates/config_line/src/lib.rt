// What line 1 of a trace says: CFG, M, T, W, R, C, O, IN, IC, RS, passive, L, SNI, CBV, id.
//
// Promises: for any bytes, whether the line can be read, and the configuration that its fields give, with PN off; that
// the line's first 81 bytes say the same as the line (proofs/Cut). Leaves to others: PN (`pn_line`), and the rules of a
// configuration (`rules`).
#![tactic(auto)]

ghost use Rattle.std.specs.Prelude.{◌≡◌};
ghost use Rattle.settings.specs.Settings.{given};
ghost use Rattle.config_line.specs.ConfigLine.{config_of, config_reads, is_position, position_of, read_config};

use config::{Config, Layout, Partial, Times};
use names::Name;

// The byte of a header field: 0, 1 or a dash.
fn is_position(x: u64) -> bool
    ensures { result ≡ is_position x }
{
    (x < 2) | (x == fields::DASH)
}

// The position that a field gives: a dash turns the header field off.
fn position_of(x: u64) -> u64
    ensures { result ≡ position_of x }
{
    choice::pick(x == fields::DASH, config::OFF, x)
}

#[tactic(auto, unfolding(crate::specs::ConfigLine::config_reads))]
fn config_reads(t: &[u64; settings::CFG_FIELDS]) -> bool
    ensures { result ≡ config_reads t.now }
{
    let all: &[u64] = t;
    settings::all_numbers(&all[1..10])
        & settings::is_flag(t[10])
        & settings::is_number(t[11])
        & is_position(t[12])
        & is_position(t[13])
        & settings::is_number(t[14])
}

// The configuration with PN off.
#[tactic(auto, unfolding(crate::specs::ConfigLine::config_of))]
fn config_of(t: &[u64; settings::CFG_FIELDS]) -> Config
    ensures { result ≡ config_of t.now }
{
    Config {
        period: t[1],
        times: Times {
            timeout: t[2],
            wait: t[3],
            repeat: t[4],
            cycle: t[5],
            offset: t[6],
            fast: t[8],
            remote: t[9],
            reset: 0,
        },
        immediate: t[7],
        node: t[14],
        passive: t[10] == 1,
        layout: Layout {
            length: t[11],
            sni: position_of(t[12]),
            cbv: position_of(t[13]),
        },
        pn: Partial::default(),
    }
}

// The configuration that a line's fields give, whether the line can be read or not.
pub fn fields_config(l: &[u8]) -> Config
    ensures { result ≡ (read_config l.now).config }
{
    let mut t = [0u64; settings::CFG_FIELDS];
    fields::tokens(l, &mut t);
    config_of(&t)
}

// The configuration that line 1 gives.
pub fn read_config(l: &[u8]) -> Option<Config>
    ensures { result ≡ given (read_config l.now) }
{
    let mut t = [0u64; settings::CFG_FIELDS];
    let n = fields::tokens(l, &mut t);
    if settings::is_line(l, Some(Name::Cfg), settings::CFG_FIELDS, n) & config_reads(&t) {
        Some(config_of(&t))
    } else {
        None
    }
}
