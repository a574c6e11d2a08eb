// The lines of a trace that give the configuration: line 1, and line 2 where that is a PN line.
//
// Promises: the run after such a line and the text that it prints, by the definitions of specs/ConfigLines, unreadable
// lines and refused configurations included. Leaves to others: reading the lines (`config_line`, `pn_line`), judging
// the configuration (`channel`), and whether line 2 is a PN line (`trace_line`).
#![tactic(auto)]

ghost use Rattle.std.specs.Prelude.{◌≡◌};
ghost use Rattle.print.specs.Print.{HasRoom};
ghost use Rattle.runs.specs.Runs.{Prints};
ghost use Rattle.config_lines.specs.ConfigLines.{begun, broken, first_line, holding, judged_phase, partial_line};
ghost use Rattle.report.specs.Report.{report_most};

use channel::state::Channel;
use config::Config;
use print::Writer;
use runs::{Phase, Run};

// ---- runs

// The number of line 1.
pub const FIRST_NUMBER: u64 = 1;

// A run behind so many lines that holds a configuration, which is not judged yet.
#[tactic(auto, unfolding(crate::specs::ConfigLines::holding))]
pub fn holding(phase: Phase, lines: u64, c: Config) -> Run
    ensures { result ≡ holding phase lines c }
{
    Run {
        phase,
        lines,
        channel: Channel::fresh(c, time_rules::ticks_for(c)),
    }
}

// The phase behind the configuration.
fn judged_phase(done: bool) -> Phase
    ensures { result ≡ judged_phase done }
{
    if done { Phase::Running } else { Phase::Ended }
}

// ---- lines

// A line of the configuration that can't be read ends the run. There must be room for its own.
#[tactic(auto, unfolding(crate::specs::ConfigLines::broken))]
fn broken(run: Run, w: &mut Writer) -> Run
    requires { HasRoom w.old report_most }
    ensures { Prints (broken run) w.old result w.new }
{
    let n = runs::counted(run.lines);
    runs::put_bare(w, n, runs::UNREADABLE_DIGIT, print::DASH);
    runs::passed(run, Phase::Ended)
}

// The configuration is judged, which prints line 1; n lines came before the next. There must be room for a line.
pub fn begin(c: Config, n: u64, w: &mut Writer) -> Run
    requires { HasRoom w.old report_most }
    ensures { Prints (begun c n) w.old result w.new }
{
    let s = Channel::initialise(c);
    let done = s.answer.is_ok();
    let state = s.channel.own.mode.state;
    let letter = choice::pick(done, report::letter(state), print::DASH);
    runs::put_bare(w, FIRST_NUMBER, runs::digit(s.answer), letter);
    Run {
        phase: judged_phase(done),
        lines: n,
        channel: s.channel,
    }
}

// Line 1. There must be room for a line.
pub fn first_line(run: Run, l: &[u8], w: &mut Writer) -> Run
    requires { HasRoom w.old report_most }
    ensures { Prints (first_line run l.now) w.old result w.new }
{
    match config_line::read_config(l) {
        Some(c) => holding(Phase::Second, runs::counted(run.lines), c),
        None => broken(run, w),
    }
}

// A PN line. There must be room for a line.
pub fn partial_line(run: Run, l: &[u8], w: &mut Writer) -> Run
    requires { HasRoom w.old report_most }
    ensures { Prints (partial_line run l.now) w.old result w.new }
{
    match pn_line::read_partial(run.channel.own.config, l) {
        Some(c) => begin(c, runs::counted(run.lines), w),
        None => broken(run, w),
    }
}
