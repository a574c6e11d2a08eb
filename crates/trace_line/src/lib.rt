// A line of a trace in any phase of its run, and the end of the input.
//
// Promises: the run after any line and the text that it prints, by the definitions of specs/TraceLine; the same of the end of
// the input. Leaves to others: what a line of the configuration (`config_lines`) and a line behind it (`replay`)
// come to, and the run over all lines (`trace`).
#![tactic(auto)]

ghost use Rattle.std.specs.Prelude.{◌≡◌, ◌+◌, ◌*◌};
ghost use Rattle.print.specs.Print.{HasRoom};
ghost use Rattle.runs.specs.Runs.{Prints};
ghost use Rattle.trace_line.specs.TraceLine.{ending, following, is_running, line_of, room, second_line};
ghost use Rattle.report.specs.Report.{report_most};
ghost use Rattle.config.specs.Ranges.{pdu_most};

use print::Writer;
use runs::{Phase, Run};

// Does the next line ask for a call?
pub fn is_running(phase: Phase) -> bool
    ensures { result ≡ is_running phase }
{
    matches!(phase, Phase::Running)
}

// A line behind the judged configuration. There must be room for the longest line.
#[tactic(auto, unfolding(crate::specs::TraceLine::following))]
fn follow(run: Run, l: &[u8], w: &mut Writer) -> Run
    requires { HasRoom w.old (report_most + 2 * pdu_most) }
    ensures { Prints (following run l.now) w.old result w.new }
{
    if is_running(run.phase) {
        return replay::later_line(run, l, w);
    }
    runs::passed(run, run.phase)
}

// Line 2. There must be room for what it prints.
#[tactic(auto, unfolding(crate::specs::TraceLine::second_line))]
fn second_line(run: Run, l: &[u8], w: &mut Writer) -> Run
    requires { HasRoom w.old room }
    ensures { Prints (second_line run l.now) w.old result w.new }
{
    if pn_line::is_partial(l) {
        return config_lines::partial_line(run, l, w);
    }
    let begun = config_lines::begin(run.channel.own.config, run.lines, w);
    follow(begun, l, w)
}

// Room for what a line prints.
pub const ROOM: usize = 65;

// A line of a trace. There must be room for what it prints. No table of functions by phase: a call through it would need one
// clause for all four, and the match has a line for each.
#[tactic(auto, unfolding(crate::specs::TraceLine::line_in))]
pub fn line(run: Run, l: &[u8], w: &mut Writer) -> Run
    requires { HasRoom w.old room }
    ensures { Prints (line_of run l.now) w.old result w.new }
{
    match run.phase {
        Phase::First => config_lines::first_line(run, l, w),
        Phase::Second => second_line(run, l, w),
        Phase::Running => replay::later_line(run, l, w),
        Phase::Ended => runs::passed(run, Phase::Ended),
    }
}

// The end of the input: a configuration that waits for line 2 is judged. There must be room for a line. A match, as in `line`.
#[tactic(auto, unfolding(crate::specs::TraceLine::ending))]
pub fn finish(run: Run, w: &mut Writer) -> Run
    requires { HasRoom w.old report_most }
    ensures { Prints (ending run) w.old result w.new }
{
    match run.phase {
        Phase::Second => config_lines::begin(run.channel.own.config, run.lines, w),
        Phase::First | Phase::Running | Phase::Ended => run,
    }
}
