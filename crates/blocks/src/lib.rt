// A text that is read in blocks: the lines that are finished, and what is kept of the unfinished one.
//
// Promises: where the unfinished line of a text begins, and whether all its lines have a number; that a run over blocks,
// which keeps the start of an unfinished line, gives what the run over the whole text gives (proofs/Blocks). Leaves to
// others: the lines themselves (`text`), which blocks are taken, and what is kept between them (`trace`).
#![tactic(auto)]

ghost use Rattle.std.specs.Prelude.{◌≡◌, ◌+◌, ◌<◌, MatchOption, length, slice_index};
ghost use Rattle.text.specs.Lines.{line_feed};
ghost use Rattle.blocks.specs.Blocks.{NoneFrom, finished_len, lines_fit};

// The most bytes that a line may have. One byte more tells that it is too long, so no more of it is kept.
pub const LINE_MOST: usize = 80;

// The place of the last line feed.
fn last_end(s: &[u8]) -> Option<usize>
    ensures { MatchOption result (NoneFrom 0 s.now) (λ i. (i < length s.now) × (slice_index s.now i ≡ line_feed) × NoneFrom (i + 1) s.now) }
{
    s.iter().rposition(|b| *b == text::LINE_FEED)
}

// How many bytes the finished lines of a text have, with their line feeds: where its unfinished line begins.
pub fn finished_len(s: &[u8]) -> usize
    ensures { result ≡ finished_len s.now }
{
    match last_end(s) {
        Some(i) => i + 1,
        None => 0,
    }
}

// The most lines that are counted, which is the largest number of a line.
pub const LINES_MOST: u64 = u64::MAX;

// Can the lines of a text be counted behind so many lines? They are looked for only if there are more bytes than line numbers
// left: a text has no more lines than bytes.
pub fn lines_fit(lines: u64, text: &[u8]) -> bool
    ensures { result ≡ lines_fit lines text.now }
{
    let left = LINES_MOST - lines;
    text.len() as u64 <= left || text::line_count(text) as u64 <= left
}
