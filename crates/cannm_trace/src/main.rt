// The trace program: a trace on standard input, what it prints on standard output, in memory that does not grow with it.
//
// Promises: safe and ending on any input. What a block and the end of the input print is promised by `trace`, and that
// blocks print what the whole trace prints is proved in `trace_claims`. No contract can say which bytes are read and
// written; that they are the input's and the text's is tested.
#![tactic(auto)]

ghost use Rattle.std.specs.Prelude.{◌≤◌, length};

use std::io;
use std::io::{Read, Write};
use trace::{BLOCK_MOST, BLOCK_ROOM, Trace};

// ---- sizes

// What is read at once, in many blocks, since a read takes far longer than a block.
const INPUT: usize = 131072;

// What is printed before it is written: many blocks print as much. It has room for what one can print.
const OUTPUT: usize = 131072;

// ---- writing

// What is printed and not yet written: the first `n` bytes. No `BufWriter`: it asks the heap, and nothing here does.
#[derive(Drop)]
struct Output {
    bytes: [u8; OUTPUT],
    n: usize,
    ghost within: { n ≤ length bytes },
}

impl Output {
    // Writes what is not yet written.
    fn write_to<W: Write>(&mut self, to: &mut W) -> io::Result<()> {
        to.write_all(slices::part(&self.bytes, 0, self.n))?;
        self.n = 0;
        Ok(())
    }

    // Puts a text behind it. Where there is no room for it, what is not yet written is written first.
    fn append<W: Write>(&mut self, to: &mut W, text: &[u8]) -> io::Result<()> {
        if text.len() <= OUTPUT - self.n {
            slices::put_part(&mut self.bytes, self.n, text);
            self.n += text.len();
            return Ok(());
        }
        self.write_to(to)?;
        slices::copy(text, &mut self.bytes);
        self.n = text.len().min(OUTPUT);
        Ok(())
    }
}

// What a block prints into, and what is then to be written. Where it is written to stands beside it: that is lent, and of any type.
#[derive(Drop)]
struct Buffers {
    page: [u8; BLOCK_ROOM],
    out: Output,
}

// ---- blocks

// What was read, block by block, and all that it prints is written. Answers the trace behind it, or none where no block is to
// follow. After a write that fails, nothing more is written. No input is so long that a block is refused; should one be, nothing
// more is printed: what the lines behind it would have said is not known.
fn blocks<W: Write>(
    to: &mut W,
    trace: Trace,
    text: &[u8],
    buffers: &mut Buffers,
) -> io::Result<Option<Trace>> {
    let mut now = trace;
    for block in text.chunks(BLOCK_MOST) {
        let r = trace::block(now, block, &mut buffers.page);
        buffers
            .out
            .append(to, slices::part(&buffers.page, 0, r.at))?;
        if r.answer.is_err() {
            buffers.out.write_to(to)?;
            return Ok(None);
        }
        now = r.trace;
    }
    buffers.out.write_to(to)?;
    Ok(Some(now))
}

// The end of the input.
fn end<W: Write>(to: &mut W, trace: Trace, buffers: &mut Buffers) -> io::Result<()> {
    let r = trace::end(trace, &mut buffers.page);
    to.write_all(slices::part(&buffers.page, 0, r.at))
}

// ---- the loop

// One read, and what it brings; the answer is as that of `blocks`. After a write that fails, nothing more is read. After a read
// that fails, nothing more is printed: what the unfinished line would have said is not known.
fn turn<R: Read, W: Write>(
    from: &mut R,
    to: &mut W,
    trace: Trace,
    input: &mut [u8; INPUT],
    buffers: &mut Buffers,
) -> io::Result<Option<Trace>> {
    let n = from.read(input)?;
    if n == 0 {
        end(to, trace, buffers)?;
        return Ok(None);
    }
    blocks(to, trace, &input[..n], buffers)
}

// The turns are counted only so that the loop is seen to end: there are more than any input has bytes.
fn run_all<R: Read, W: Write>(
    from: &mut R,
    to: &mut W,
    input: &mut [u8; INPUT],
    buffers: &mut Buffers,
) -> io::Result<()> {
    let mut now = trace::start();
    for _ in 0..u64::MAX {
        match turn(from, to, now, input, buffers)? {
            Some(next) => now = next,
            None => return Ok(()),
        }
    }
    Ok(())
}

// A read or a write that fails ends the run, and the exit status is 0 then too.
fn main(rt: HostRuntime) {
    let mut input = [0u8; INPUT];
    let mut buffers = Buffers {
        page: [0u8; BLOCK_ROOM],
        out: Output {
            bytes: [0u8; OUTPUT],
            n: 0,
        },
    };
    let _ = run_all(&mut rt.stdin(), &mut rt.stdout(), &mut input, &mut buffers);
}
