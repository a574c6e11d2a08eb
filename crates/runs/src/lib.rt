// A run of a trace between two lines, and the parts of printed lines that all its phases use.
//
// Promises: the count of the lines, the line without notes and frame, and which bytes of a frame are printed, by the
// definitions of specs/Runs. Leaves to others: what a line does to the run (`config_lines`, `replay`).
#![tactic(auto)]

ghost use Rattle.std.specs.Prelude.{◌≡◌, ◌+◌};
ghost use Rattle.print.specs.Print.{HasRoom, Puts};
ghost use Rattle.answers.specs.Answers.{number_of};
ghost use Rattle.report.specs.Report.{letter_of, report_most};
ghost use Rattle.runs.specs.Runs.{bare_text, counted, digit_of, passed, quiet, sent_bytes, unreadable_digit};

use answers::Answer;
use channel::state::{Channel, Notes};
use print::Writer;
use report::Line;
use states::State;

// ---- runs

// What the next line is for.
#[derive(Clone, Copy, PartialEq, Eq)]
pub enum Phase {
    // The configuration: line 1.
    First,
    // A PN line, or the first call: line 2.
    Second,
    // A call of the channel.
    Running,
    // Nothing: a line of the configuration can't be read, or the configuration is refused.
    Ended,
}

// A run between two lines, with the count of those that came before. Until the configuration is judged the channel only holds
// it. The phases hold no channel of their own: `Reaches` (`trace_claims`) speaks of the channel of any run.
#[derive(Clone, Copy)]
pub struct Run {
    pub phase: Phase,
    pub lines: u64,
    pub channel: Channel,
}

// The run after a text, and how many bytes it printed.
#[derive(Clone, Copy)]
pub struct Step {
    pub run: Run,
    pub at: usize,
}

// The count with one more line: the number of that line.
#[tactic(auto, unfolding(crate::specs::Runs::counted))]
pub fn counted(n: u64) -> u64
    ensures { result ≡ counted n }
{
    n.saturating_add(1)
}

// The run in a phase, with one more line counted.
#[tactic(auto, unfolding(crate::specs::Runs::passed))]
pub fn passed(run: Run, phase: Phase) -> Run
    ensures { result ≡ passed run phase }
{
    Run {
        phase,
        lines: counted(run.lines),
        ..run
    }
}

// ---- printed lines

// The answer for a line that can't be read, as it is printed.
pub const UNREADABLE_DIGIT: u8 = b'7';

// The byte of an answer's number.
pub fn digit(a: Answer) -> u8
    ensures { result ≡ digit_of (number_of a) }
{
    b'0' + answers::number(a)
}

fn quiet() -> Notes
    ensures { result ≡ quiet }
{
    Notes::default()
}

// A line without notes and frame. There must be room for the longest.
#[tactic(auto, unfolding(crate::specs::Runs::bare_text))]
pub fn put_bare(w: &mut Writer, number: u64, answer: u8, state: u8)
    requires { HasRoom w.old report_most }
    ensures { Puts w.old (bare_text number answer state) w.new }
{
    let l = Line {
        number,
        answer,
        state,
        notes: quiet(),
        frame: b"",
    };
    l.put(w);
}

// The line for one that can't be read, in a state. There must be room for it.
pub fn put_unreadable(w: &mut Writer, number: u64, state: State)
    requires { HasRoom w.old report_most }
    ensures { Puts w.old (bare_text number unreadable_digit (letter_of state)) w.new }
{
    put_bare(w, number, UNREADABLE_DIGIT, report::letter(state));
}

// The bytes of a frame that are printed: the first so many if it was sent.
#[tactic(auto, unfolding(crate::specs::Runs::sent_bytes))]
pub fn sent_bytes<'a>(sent: bool, length: u64, frame: &'a [u8]) -> &'a [u8]
    ensures { result.now ≡ sent_bytes sent length frame.now }
{
    slices::part(frame, 0, choice::pick(sent, length, 0) as usize)
}
