// For tests alone: a trace in blocks, on numbers and byte strings, so that it can be compared with an independent
// implementation. Nothing of the product stands on this crate.
//
// Promises: nothing of its results, only that each function ends and goes without an error. Leaves to others: what a block
// comes to (`trace`).
#![tactic(auto)]

use runs::Run;
use trace::{BLOCK_ROOM, Trace};

// C interface of the tests: the two structs and their numbers, as tests/compare declares them.
#[repr(C)]
#[derive(Clone, Copy)]
pub struct InBlocks {
    pub printed: u64,
    pub lines: u64,
    pub kept: u64,
    pub end_at: u64,
    pub end_lines: u64,
}

#[repr(C)]
#[derive(Clone, Copy)]
pub struct AfterBlock {
    pub answer: u64,
    pub at: u64,
    pub lines: u64,
    pub kept: u64,
}

// A trace between two blocks, and how many bytes it has printed.
#[derive(Clone, Copy)]
struct Went {
    trace: Trace,
    printed: usize,
}

// The trace as if so many lines had come before.
fn counting(trace: Trace, lines: u64) -> Trace {
    Trace {
        run: Run { lines, ..trace.run },
        ..trace
    }
}

// The block before which the count of lines is set, and the count.
#[derive(Clone, Copy)]
struct Preset {
    before: u64,
    lines: u64,
}

// The trace with its count set before a block, if that is the one.
fn counting_at(trace: Trace, k: usize, preset: Preset) -> Trace {
    if k as u64 == preset.before {
        return counting(trace, preset.lines);
    }
    trace
}

// Where blocks put their answers and all that they print, and the page that one block prints on.
#[derive(Drop)]
struct Room<'a> {
    answers: &'a mut [u8],
    out: &'a mut [u8],
    page: &'a mut [u8; BLOCK_ROOM],
}

// One block: its answer at its place, its text behind what is printed.
fn one(w: Went, block: &[u8], k: usize, room: &mut Room) -> Went {
    let r = trace::block(w.trace, block, room.page);
    slices::put(room.answers, k, answers::number(r.answer));
    slices::put_part(room.out, w.printed, slices::part(room.page, 0, r.at));
    Went {
        trace: r.trace,
        printed: w.printed.saturating_add(r.at),
    }
}

// The blocks of a text, by the place behind each. Before one of them the count of lines is set.
fn all(text: &[u8], ends: &[u64], preset: Preset, room: &mut Room) -> Went {
    let mut w = Went {
        trace: trace::start(),
        printed: 0,
    };
    let mut from: usize = 0;
    for (k, end) in ends.iter().enumerate() {
        let to = from.max(*end as usize);
        let trace = counting_at(w.trace, k, preset);
        let block = slices::part(text, from, to - from);
        w = one(Went { trace, ..w }, block, k, room);
        from = to;
    }
    w
}

// How many bytes a page has, which is lent without its length.
#[unsafe(no_mangle)]
pub extern "C" fn test_trace_page() -> u64 {
    BLOCK_ROOM as u64
}

#[unsafe(no_mangle)]
pub extern "C" fn test_trace_in_blocks(
    text: &[u8],
    ends: &[u64],
    preset_before: u64,
    preset: u64,
    answers: &mut [u8],
    out: &mut [u8],
    page: &mut [u8; BLOCK_ROOM],
) -> InBlocks {
    let mut room = Room {
        answers,
        out,
        page: &mut [0u8; BLOCK_ROOM],
    };
    let preset = Preset {
        before: preset_before,
        lines: preset,
    };
    let w = all(text, ends, preset, &mut room);
    let s = trace::end(w.trace, page);
    InBlocks {
        printed: w.printed as u64,
        lines: w.trace.run.lines,
        kept: w.trace.kept as u64,
        end_at: s.at as u64,
        end_lines: s.run.lines,
    }
}

#[unsafe(no_mangle)]
pub extern "C" fn test_trace_block(
    text: &[u8],
    ends: &[u64],
    preset_before: u64,
    preset: u64,
    block: &[u8],
    page: &mut [u8; BLOCK_ROOM],
) -> AfterBlock {
    let mut room = Room {
        answers: &mut [0u8; 1],
        out: &mut [0u8; 1],
        page: &mut [0u8; BLOCK_ROOM],
    };
    let preset = Preset {
        before: preset_before,
        lines: preset,
    };
    let w = all(text, ends, preset, &mut room);
    let r = trace::block(w.trace, block, page);
    AfterBlock {
        answer: answers::number(r.answer) as u64,
        at: r.at as u64,
        lines: r.trace.run.lines,
        kept: r.trace.kept as u64,
    }
}
