// A text in a lent slice, a line at a time.
//
// Promises: the place of any byte and of every line, for any text and any place, and how many lines there are. Leaves to
// others: what a line says (`fields`), and a text that is read in blocks (`blocks`).
#![tactic(auto)]

ghost use Rattle.std.specs.Prelude.{◌≡◌, ◌+◌, ◌==◌, length, drop, position};
ghost use Rattle.text.specs.Lines.{line_feed, lines_of, reader_at, span_at, until};

// The byte that ends a line.
pub const LINE_FEED: u8 = 10;

// ---- lines

// The place of the first `b`.
fn first(s: &[u8], b: u8) -> Option<usize>
    ensures { result ≡ position (λ x. x == b) s.now }
{
    s.iter().position(|x| *x == b)
}

// The place of the first `b` at or after `at`: the length where there is none, and `at` itself past the end.
pub fn find(s: &[u8], at: usize, b: u8) -> usize
    ensures { result ≡ at + until b (drop at s.now) }
{
    if s.len() <= at {
        return at;
    }
    let rest = &s[at..];
    at + first(rest, b).unwrap_or(rest.len())
}

// The place past the last byte of the line that begins at `at`.
pub fn line_end(s: &[u8], at: usize) -> usize
    ensures { result ≡ at + until line_feed (drop at s.now) }
{
    find(s, at, LINE_FEED)
}

// The line that begins at a place, by the place of its first byte and the place past its last; the next line begins one behind
// that.
pub fn span_at(s: &[u8], at: usize) -> Option<(usize, usize)>
    ensures { result ≡ span_at s.now at }
{
    if at < s.len() {
        Some((at, line_end(s, at)))
    } else {
        None
    }
}

// How many lines a text has; a last line without a line feed counts if it has a byte.
pub fn line_count(s: &[u8]) -> usize
    ensures { result ≡ length (lines_of s.now) }
{
    let mut n: usize = 0;
    let mut at: usize = 0;
    // A place is carried along: no lemma of std says which parts `split_inclusive` of a slice yields.
    while let Some((_, end)) = span_at(s, at) {
        at = end + 1;
        n += 1;
    }
    n
}

// ---- the reader

// The lent text and the place where its next line begins.
#[derive(Clone, Copy)]
pub struct Reader<'a> {
    pub text: &'a [u8],
    pub at: usize,
}

impl<'a> Reader<'a> {
    pub fn new(text: &'a [u8], at: usize) -> Reader<'a>
        ensures { result ≡ reader_at text.entry at }
    {
        Reader { text, at }
    }

    // The reader's next line.
    pub fn next(self) -> Option<(usize, usize)>
        ensures { result ≡ span_at self.entry.text.now self.entry.at }
    {
        span_at(self.text, self.at)
    }
}

// The same by a reader. The reader stays, since a small reader over the lent text is a rule of the project; this function serves
// callers that hold a text and a place.
pub fn line_at(text: &[u8], at: usize) -> Option<(usize, usize)>
    ensures { result ≡ span_at text.now at }
{
    Reader::new(text, at).next()
}
