// Sound states: all conditions together.
//
// Promises: each function is a definition of specs/. Leaves to others: the conditions (`kept_ticks`, `conditions`,
// `pn_limits`), and refusing a state that is not sound (`channel`).
#![tactic(auto)]

ghost use Rattle.std.specs.Prelude.{◌≡◌, ◌&&◌, length};
ghost use Rattle.config.specs.Ranges.{pnc_most};
ghost use Rattle.pn_limits.specs.Limits.{all_under};
ghost use Rattle.kept_ticks.specs.KeptTicks.{configured};
ghost use Rattle.soundness.specs.Sound.{sound_of};
ghost use Rattle.soundness.specs.Kept.{prepared_of, sound_by};

use config::{Config, PNC_MOST, Ticks};
use states::{Mode, Traffic};
use traffic::{Setup, setup_of};

// What a configuration with its ticks comes to: whether it passes, what the rules need of it, and the most that each PN
// timer may hold. None of these changes from call to call, so that a host can keep them.
#[derive(Clone, Copy)]
pub struct Prepared {
    pub passes: bool,
    pub setup: Setup,
    pub limits: [u16; PNC_MOST],
}

// The PN timers of both tables, at their lengths.
fn timers_sound(limits: &[u16; PNC_MOST], era: &[u16; PNC_MOST], eira: &[u16; PNC_MOST]) -> bool
    ensures value { result ≡ (all_under limits.now era.now && all_under limits.now eira.now) }
    ensures era_len { (length era.now ≡ pnc_most) × (length eira.now ≡ pnc_most) }
{
    pn_limits::pair_under(limits, era, eira)
}

impl Prepared {
    #[tactic(auto, unfolding(crate::specs::Kept::prepared_of))]
    pub fn new(c: Config, t: Ticks) -> Prepared
        ensures { result ≡ prepared_of c t }
    {
        let mut limits = [0u16; PNC_MOST];
        pn_limits::put_limits(c, t, &mut limits);
        Prepared {
            passes: kept_ticks::configured(c, t),
            setup: setup_of(c, t),
            limits,
        }
    }

    // The parts of a channel with this configuration are sound; its tables are lent, not copied.
    #[tactic(auto, unfolding(crate::specs::Kept::sound_by))]
    pub fn is_sound(
        &self,
        m: Mode,
        x: Traffic,
        era: &[u16; PNC_MOST],
        eira: &[u16; PNC_MOST],
    ) -> bool
        ensures value { result ≡ sound_by self.now m x era.now eira.now }
        ensures era_len { (length era.now ≡ pnc_most) × (length eira.now ≡ pnc_most) }
    {
        let s = self.setup;
        self.passes
            & conditions::mode_sound(s.ticks, m)
            & conditions::traffic_sound(s, m.state, x)
            & conditions::passive_sound(s.passive, m, x)
            & timers_sound(&self.limits, era, eira)
    }
}

// The same, where the configuration was not prepared before.
#[tactic(auto, using(crate::proofs::Alike::prepared_alike))]
pub fn sound(
    c: Config,
    t: Ticks,
    m: Mode,
    x: Traffic,
    era: &[u16; PNC_MOST],
    eira: &[u16; PNC_MOST],
) -> bool
    ensures { result ≡ sound_of c t m x era.now eira.now }
{
    Prepared::new(c, t).is_sound(m, x, era, eira)
}
