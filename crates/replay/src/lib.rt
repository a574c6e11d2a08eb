// A line of a trace behind the configuration: read, carried out on the channel, and printed.
//
// Promises: the run after any such line and the text that it prints, by the definitions of specs/Replay, refused and
// unreadable lines included. Leaves to others: the configuration's lines (`config_lines`) and the run over all lines
// (`trace`).
#![tactic(auto)]

ghost use Rattle.std.specs.Prelude.{◌≡◌, ◌+◌, ◌*◌};
ghost use Rattle.print.specs.Print.{HasRoom};
ghost use Rattle.runs.specs.Runs.{Prints, counted};
ghost use Rattle.replay.specs.Replay.{called, later_line, run_in, shown};
ghost use Rattle.report.specs.Report.{report_most};
ghost use Rattle.config.specs.Ranges.{pdu_most};

use answers::Refusal;
use channel::state::Told;
use command_names::Command;
use config::PDU_MOST;
use kept_channel::KeptChannel;
use print::Writer;
use report::Line;
use runs::{Phase, Run};

// The most bytes in hex of a line.
const BYTES_MOST: usize = 40;

// What a line shows of what a call told: refused, no note and no frame.
fn shown(told: Result<Told, Refusal>) -> Told
    ensures { result ≡ shown told }
{
    told.unwrap_or_default()
}

// A call, and the line of its reply, behind n lines. There must be room for the longest line.
fn called(k: &mut KeptChannel, n: u64, command: Command, bytes: &[u8], w: &mut Writer)
    requires { HasRoom w.old (report_most + 2 * pdu_most) }
    ensures { Prints (called (run_in n k.old) command bytes.now) w.old (run_in (counted n) k.new) w.new }
{
    let mut frame = [0u8; PDU_MOST];
    let told = dispatch_in_place::carry_out_in_place(k, command, bytes, &mut frame);
    let answer = runs::digit(answers::answer_to(told));
    let told = shown(told);
    let l = Line {
        number: runs::counted(n),
        answer,
        state: report::letter(k.channel.own.mode.state),
        notes: told.notes,
        frame: runs::sent_bytes(told.sent, k.channel.own.config.layout.length, &frame),
    };
    l.put(w);
}

// A line behind the configuration and n lines in all, by a channel that is kept. A line that can't be read changes nothing.
// There must be room for the longest line.
pub fn later_line_in_place(k: &mut KeptChannel, n: u64, l: &[u8], w: &mut Writer)
    requires { HasRoom w.old (report_most + 2 * pdu_most) }
    ensures { Prints (later_line (run_in n k.old) l.now) w.old (run_in (counted n) k.new) w.new }
{
    let mut bytes = [0u8; BYTES_MOST];
    match commands::read(l, &mut bytes) {
        Some(command) => called(k, n, command, &bytes, w),
        None => runs::put_unreadable(w, runs::counted(n), k.channel.own.mode.state),
    }
}

// A line behind the configuration. There must be room for the longest line.
pub fn later_line(run: Run, l: &[u8], w: &mut Writer) -> Run
    requires { HasRoom w.old (report_most + 2 * pdu_most) }
    ensures { Prints (later_line run l.now) w.old result w.new }
{
    let mut k = KeptChannel::new(run.channel);
    later_line_in_place(&mut k, run.lines, l, w);
    Run {
        phase: Phase::Running,
        lines: runs::counted(run.lines),
        channel: k.channel,
    }
}
