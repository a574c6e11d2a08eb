// The lines of a trace behind the configuration, one behind the other on one channel.
//
// Promises: the run after all of them and the text that they print, by the definition of specs/CallLines. Leaves to others:
// what one line comes to (`replay`), and the lines of the configuration before them (`trace`).
#![tactic(auto)]

ghost use Rattle.std.specs.Prelude.{◌≡◌, ◌*◌, ◌-◌, length, drop};
ghost use Rattle.print.specs.Print.{HasRoom};
ghost use Rattle.text.specs.Lines.{lines_of};
ghost use Rattle.runs.specs.declared.Phase.TheVariants.{Running};
ghost use Rattle.runs.specs.Runs.{Prints};
ghost use Rattle.trace_line.specs.TraceLine.{room};
ghost use Rattle.call_lines.specs.CallLines.{lines_from};

use kept_channel::KeptChannel;
use print::Writer;
use runs::{Phase, Run};

// The lines of a text behind the configuration, from a place of the text on. What the configuration comes to is found once for
// all lines. There must be room for what each prints.
#[tactic(auto, using(text::proofs::Lines::span_line))]
pub fn running(run: Run, text: &[u8], from: usize, w: &mut Writer) -> Run
    requires { (run.phase ≡ Running) × HasRoom w.old (room * (length text.now - from)) }
    ensures { Prints (lines_from run (lines_of (drop from text.now))) w.old result w.new }
{
    let mut k = KeptChannel::new(run.channel);
    let mut n = run.lines;
    let mut at = from;
    // By places, through the reader: that is a rule of the project.
    while let Some((first, end)) = text::line_at(text, at) {
        replay::later_line_in_place(&mut k, n, &text[first..end], w);
        n = runs::counted(n);
        at = end + 1;
    }
    Run {
        phase: Phase::Running,
        lines: n,
        channel: k.channel,
    }
}
