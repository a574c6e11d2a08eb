// A line that a trace prints: number, answer, state, notes and frame.
//
// Promises: the text of specs/Report is written by the writer, and nothing else. Leaves to others: the text of the notes
// (`notes_text`), what a line's answer is (`replay`), and that the buffer has room. The caller counts the room once for all
// bytes of a line (`length_line`), so that no writer tests it byte by byte. No `Display`, for the reason at `print::Writer`.
#![tactic(auto)]

ghost use Rattle.std.specs.Prelude.{◌≡◌, ◌+◌, ◌*◌, length};
ghost use Rattle.print.specs.Print.{HasRoom, Puts};
ghost use Rattle.report.specs.Report.{frame_text, head_most, head_of, letter_of, report_most, text_of_line};

use channel::state::Notes;
use print::Writer;
use states::State;

// The letter of a state.
#[tactic(auto, unfolding(crate::specs::Report::letter_of))]
pub fn letter(s: State) -> u8
    ensures { result ≡ letter_of s }
{
    match s {
        State::BusSleep => b'B',
        State::PrepareBusSleep => b'P',
        State::RepeatMessage => b'R',
        State::NormalOperation => b'N',
        State::ReadySleep => b'S',
    }
}

// ---- the line

// A line. The answer and the state are the bytes that are printed for them, and may be any, as `runs::put_bare` promises. The
// frame has no byte where none was sent.
#[derive(Clone, Copy)]
pub struct Line<'a> {
    pub number: u64,
    pub answer: u8,
    pub state: u8,
    pub notes: Notes,
    pub frame: &'a [u8],
}

impl Line<'_> {
    // What stands before the notes. There must be room for the longest number.
    fn put_head(&self, w: &mut Writer)
        requires { HasRoom w.old head_most }
        ensures { Puts w.old (head_of self.now) w.new }
    {
        w.put_number(self.number);
        w.put_pair(fields::TAB, self.answer);
        w.put_pair(fields::TAB, self.state);
        w.put(fields::TAB);
    }

    // The frame in hex, or the dash. There must be room for either.
    fn put_frame(&self, w: &mut Writer)
        requires { HasRoom w.old (1 + 2 * length self.now.frame.now) }
        ensures { Puts w.old (frame_text self.now.frame.now) w.new }
    {
        if self.frame.is_empty() {
            w.put(print::DASH);
        } else {
            w.put_hex(self.frame);
        }
    }

    // The whole line. There must be room for the longest line with such a frame.
    pub fn put(&self, w: &mut Writer)
        requires { HasRoom w.old (report_most + 2 * length self.now.frame.now) }
        ensures { Puts w.old (text_of_line self.now) w.new }
    {
        self.put_head(w);
        notes_text::put_notes(w, self.notes);
        w.put(fields::TAB);
        self.put_frame(w);
        w.put(text::LINE_FEED);
    }
}
