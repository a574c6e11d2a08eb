// The text of the notes that a line prints: their words in order, or a dash.
//
// Promises: the text of specs/NotesText is written by the writer, and nothing else. Leaves to others: which notes there are
// (`channel`), the line around them (`report`), and that the buffer has room. No `Display`, for the reason at `print::Writer`.
#![tactic(auto)]

ghost use Rattle.std.specs.Prelude.{◌≡◌, [], ◌+◌, cond, eqb, length};
ghost use Rattle.print.specs.Print.{HasRoom, Puts};
ghost use Rattle.notes_text.specs.NotesText.{notes_most, notes_text, piece, word_of, words};

use channel::state::Notes;
use print::Writer;
use states::Note;

// The byte between two notes.
const COMMA: u8 = b',';

// The word of a note, empty where there is nothing to tell.
#[tactic(auto, unfolding(crate::specs::NotesText::word_of))]
fn word_of(n: Option<Note>) -> &'static [u8]
    ensures { result.now ≡ word_of n }
{
    match n {
        None => b"",
        Some(Note::NetworkMode) => b"NM",
        Some(Note::NetworkStart) => b"ST",
        Some(Note::PrepareBusSleep) => b"PB",
        Some(Note::BusSleep) => b"BS",
        Some(Note::Timeout) => b"TO",
        Some(Note::RemoteSleepCancelled) => b"RC",
        Some(Note::RemoteSleepIndication) => b"RI",
    }
}

// The word of a vector that changed, empty where it did not.
fn change_word(changed: bool, word: &'static [u8]) -> &'static [u8]
    ensures { result.now ≡ cond changed word.now [] }
{
    if changed { word } else { b"" }
}

// A word where there is one, behind a comma unless the notes begin here. There must be room for both.
#[tactic(auto, unfolding(crate::specs::NotesText::piece))]
fn put_word(w: &mut Writer, start: usize, word: &[u8])
    requires { HasRoom w.old (1 + length word.now) }
    ensures { Puts w.old (piece (eqb w.old.at start) word.now) w.new }
{
    if word.is_empty() {
        return;
    }
    if w.at != start {
        w.put(COMMA);
    }
    w.put_all(word);
}

// The words of the notes in their order. There must be room for four.
fn put_words(w: &mut Writer, n: Notes)
    requires { HasRoom w.old notes_most }
    ensures { Puts w.old (words n) w.new }
{
    let start = w.at;
    put_word(w, start, word_of(n.first));
    put_word(w, start, word_of(n.second));
    put_word(w, start, change_word(n.eira, b"EI"));
    put_word(w, start, change_word(n.era, b"ER"));
}

// The notes, or the dash where there are none. There must be room for four words.
pub fn put_notes(w: &mut Writer, n: Notes)
    requires { HasRoom w.old notes_most }
    ensures { Puts w.old (notes_text n) w.new }
{
    let start = w.at;
    put_words(w, n);
    if w.at == start {
        w.put(print::DASH);
    }
}
