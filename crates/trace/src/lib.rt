// A run over a trace: over its whole text, or over blocks of it and the end of the input.
//
// Promises: the answer to a block, the run and the kept part of a line after it, and the text that is printed; the same of
// the end of the input and of a whole text; all by the definitions of specs/Trace and of the crates below. A block that is
// refused changes nothing. Leaves to others: reading and writing (`cannm_trace`), and what is claimed of whole traces,
// however they are cut into blocks (`trace_claims`).
#![tactic(auto)]

ghost use Rattle.std.specs.Prelude.{◌≡◌, ◌++◌, ◌+◌, ◌*◌, ◌≤◌, length};
ghost use Rattle.text.specs.Filled.{fill, filled};
ghost use Rattle.text.specs.Lines.{lines_of};
ghost use Rattle.print.specs.Print.{HasRoom};
ghost use Rattle.runs.specs.Runs.{Gives, Prints};
ghost use Rattle.trace_line.specs.TraceLine.{room};
ghost use Rattle.call_lines.specs.CallLines.{lines_from};
ghost use Rattle.trace.specs.Trace.{GivesBlock, block_of, block_reply_of, ended, first_run, keeping, refused, start, taken, whole, whole_from};

use answers::{Answer, Refusal};
use blocks::LINE_MOST;
use print::Writer;
use runs::{Phase, Run, Step};

// ---- the lines of a text

// The lines of a text. There must be room for what each prints.
#[tactic(auto, using(text::proofs::Lines::span_line))]
fn lines(run: Run, text: &[u8], w: &mut Writer) -> Run
    requires { HasRoom w.old (room * length text.now) }
    ensures { Prints (lines_from run (lines_of text.now)) w.old result w.new }
{
    let mut now = run;
    let mut at = 0;
    // By places, through the reader, which is a rule of the project; `running` goes on at the place.
    while let Some((first, end)) = text::line_at(text, at) {
        if trace_line::is_running(now.phase) {
            return call_lines::running(now, text, at, w);
        }
        now = trace_line::line(now, &text[first..end], w);
        at = end + 1;
    }
    now
}

// The same, at the start of a buffer.
fn put_lines(run: Run, text: &[u8], out: &mut [u8]) -> Step
    requires { room * length text.now ≤ length out.old }
    ensures { Gives (lines_from run (lines_of text.now)) out.old 0 out.new result }
{
    let mut w = Writer { out, at: 0 };
    let run = lines(run, text, &mut w);
    Step { run, at: w.at }
}

// A text from a run on, up to the end of the input. There must be room for what each line prints, and for a line behind them.
fn whole_from(run: Run, text: &[u8], w: &mut Writer) -> Run
    requires { HasRoom w.old (room * (length text.now + 1)) }
    ensures { Prints (whole_from run text.now) w.old result w.new }
{
    let last = lines(run, text, w);
    trace_line::finish(last, w)
}

// The same, at the start of a buffer. No closure for `lines` and `whole_from`: what it may be called with, and what it then
// prints, would stand in a contract that is longer than these lines.
fn put_whole(run: Run, text: &[u8], out: &mut [u8]) -> Step
    requires { room * (length text.now + 1) ≤ length out.old }
    ensures { Gives (whole_from run text.now) out.old 0 out.new result }
{
    let mut w = Writer { out, at: 0 };
    let run = whole_from(run, text, &mut w);
    Step { run, at: w.at }
}

// The run before the first line.
#[tactic(auto, unfolding(crate::specs::Trace::first_run))]
fn first_run() -> Run
    ensures { result ≡ first_run }
{
    config_lines::holding(Phase::First, 0, config_line::fields_config(b""))
}

// The text of a trace, all of it at once, for our own programs. There must be room for what each line prints, and for a line
// behind them.
pub fn whole(text: &[u8], out: &mut [u8]) -> Step
    requires { room * (length text.now + 1) ≤ length out.old }
    ensures { Gives (whole text.now) out.old 0 out.new result }
{
    put_whole(first_run(), text, out)
}

// ---- between two blocks

// Room for what is kept of an unfinished line: with one byte more than it may have it is known to be too long.
const KEPT_MOST: usize = LINE_MOST + 1;

// A trace between two blocks: the run up to the last finished line, and what is carried along of the unfinished one, which are
// the first `kept` bytes of `line`. No invariant bounds `kept`: `block` and `end` answer for any number there.
#[derive(Clone, Copy)]
pub struct Trace {
    pub run: Run,
    pub line: [u8; KEPT_MOST],
    pub kept: usize,
}

// A run with what is kept of an unfinished line.
#[tactic(auto, unfolding(crate::specs::Trace::keeping))]
fn keeping(run: Run, bytes: &[u8]) -> Trace
    ensures { result ≡ keeping run bytes.now }
{
    let mut line = [0u8; KEPT_MOST];
    slices::copy(bytes, &mut line);
    Trace {
        run,
        line,
        kept: bytes.len(),
    }
}

// Before the first block.
#[tactic(auto, unfolding(crate::specs::Trace::start))]
pub fn start() -> Trace
    ensures { result ≡ start }
{
    keeping(first_run(), b"")
}

// ---- a block

// The most bytes of a block.
pub const BLOCK_MOST: usize = 512;

// The most bytes of a block's text: what was kept before it, and the block.
const TEXT_MOST: usize = KEPT_MOST + BLOCK_MOST;

// Room for what a block prints, since each of its lines has a byte at least. The end of the input prints less.
pub const BLOCK_ROOM: usize = trace_line::ROOM * TEXT_MOST;

// The answer to a block, the trace behind it, and how many bytes it printed. No `Result`: of a refused block `block` promises
// the same trace beside the answer.
#[derive(Clone, Copy)]
pub struct BlockReply {
    pub answer: Answer,
    pub trace: Trace,
    pub at: usize,
}

// What was kept, and a block behind it, at the start of a buffer, as far as there is room. Answers how many bytes they are.
fn put_text(before: &[u8], block: &[u8], text: &mut [u8]) -> usize
    ensures { filled result text.new ≡ fill text.old (before.now ++ block.now) }
{
    slices::copy(before, text);
    slices::put_part(text, before.len(), block);
    before.len() + block.len()
}

// A block that is taken, by its text: its finished lines are run and printed, and what is needed of the unfinished line is kept.
// There must be room for what each line prints.
fn taken(run: Run, text: &[u8], out: &mut [u8]) -> BlockReply
    requires { room * length text.now ≤ length out.old }
    ensures { GivesBlock (taken run text.now) out.old out.new result }
{
    let end = blocks::finished_len(text);
    let s = put_lines(run, slices::part(text, 0, end), out);
    BlockReply {
        answer: Ok(()),
        trace: keeping(s.run, slices::part(text, end, KEPT_MOST)),
        at: s.at,
    }
}

// A block that is refused leaves all as it was.
fn refused(trace: Trace) -> BlockReply
    ensures { result ≡ block_reply_of (refused trace) }
{
    BlockReply {
        answer: Err(Refusal::Length),
        trace,
        at: 0,
    }
}

// The next block of the text, which may end inside a line: its finished lines are run and printed at the start of the buffer. One
// of more than 512 bytes, or one that would bring the lines, an unfinished one counted, past the largest number of a line, is
// refused.
pub fn block(trace: Trace, block: &[u8], out: &mut [u8; BLOCK_ROOM]) -> BlockReply
    ensures { GivesBlock (block_of trace block.now) out.old out.new result }
{
    if BLOCK_MOST < block.len() {
        return refused(trace);
    }
    let mut buf = [0u8; TEXT_MOST];
    let n = put_text(slices::part(&trace.line, 0, trace.kept), block, &mut buf);
    let text = slices::part(&buf, 0, n);
    if blocks::lines_fit(trace.run.lines, text) {
        return taken(trace.run, text, out);
    }
    refused(trace)
}

// ---- the end of the input

// The unfinished line is the last, and a configuration that waits for line 2 is judged. What both print stands at the start of
// the buffer.
pub fn end(trace: Trace, out: &mut [u8; BLOCK_ROOM]) -> Step
    ensures { Gives (ended trace) out.old 0 out.new result }
{
    put_whole(trace.run, slices::part(&trace.line, 0, trace.kept), out)
}
