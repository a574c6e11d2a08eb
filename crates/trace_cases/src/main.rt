// The stored traces: each trace that the file `names` lists is run, and what it prints is compared with its stored output.
//
// Promises: safe and ending for any files. A trace passes exactly if its stored output is, byte for byte, what the text of
// the trace prints by the definitions of `trace` (`passes`). Leaves to others: that `names` lists every stored trace
// (tests/vectors). No contract can say which bytes a file has.
#![tactic(auto)]

ghost use Rattle.std.specs.Prelude.{◌≡◌, true, ◌++◌, ◌+◌, ◌≤◌, IfSome, length};
ghost use Rattle.print.specs.Print.{HasRoom, Puts};
ghost use Rattle.trace.specs.Trace.{printed};

use print::Writer;
use std::fs;
use std::io::Read;
use std::rt::Files;

// ---- sizes: what is longer counts as a difference

// The most bytes of the list, of a stored trace or output, and of the name of a file.
const NAMES_MOST: usize = 16384;

const FILE_MOST: usize = 2048;

const PATH_MOST: usize = 128;

// What a trace can print, since a line has a byte at least, and the end of the input behind its lines.
const OUTPUT: usize = trace_line::ROOM * (FILE_MOST + 1);

// ---- files

// The name of a file. There must be room for it.
fn put_path(w: &mut Writer, name: &[u8], ending: &[u8])
    requires { HasRoom w.old (length name.now + length ending.now) }
    ensures { Puts w.old (name.now ++ ending.now) w.new }
{
    w.put_all(name);
    w.put_all(ending);
}

// Reads until the buffer is full, the file ends or a read fails. Answers how many bytes stand in front of the buffer.
fn read_full<F: Read>(file: &mut F, buf: &mut [u8]) -> usize
    ensures { result ≤ length buf.new }
{
    let mut done = 0;
    // Counted by hand: `read_exact` does not tell how many bytes came before the file's end or an error.
    while done < buf.len() {
        match file.read(&mut buf[done..]) {
            Ok(0) | Err(_) => break,
            Ok(n) => done += n,
        }
    }
    done
}

// The bytes of a whole file, in front of the buffer. A file is whole where a read behind its last byte tells that nothing
// follows: not where its name is no UTF-8 text, where it can't be opened or read, or where it is longer than the buffer.
fn read_file<'a, R: Files>(rt: &R, path: &[u8], buf: &'a mut [u8]) -> Option<&'a [u8]>
    ensures { IfSome result (λ bytes. length bytes.now ≤ length buf.old) }
{
    let name = str::from_utf8(path).ok()?;
    let mut file = fs::open(rt, name).ok()?;
    let n = read_full(&mut file, buf);
    let mut behind = [0u8; 1];
    match file.read(&mut behind) {
        Ok(0) => Some(&buf[..n]),
        _ => None,
    }
}

// A file of a trace, by the trace's name and what its own name ends in.
fn read_named<'a, R: Files>(
    rt: &R,
    name: &[u8],
    ending: &[u8],
    buf: &'a mut [u8],
) -> Option<&'a [u8]>
    ensures { IfSome result (λ bytes. length bytes.now ≤ length buf.old) }
{
    if PATH_MOST < name.len() + ending.len() {
        return None;
    }
    let mut path = [0u8; PATH_MOST];
    let mut w = Writer {
        out: &mut path,
        at: 0,
    };
    put_path(&mut w, name, ending);
    let n = w.at;
    read_file(rt, &path[..n], buf)
}

// ---- traces

// Is the stored output what the trace prints?
fn passes(text: &[u8], stored: &[u8], out: &mut [u8; OUTPUT]) -> bool
    requires { length text.now ≤ 2048 }
    ensures { (result ≡ true → printed text.now ≡ stored.now) × (printed text.now ≡ stored.now → result ≡ true) }
{
    let s = trace::whole(text, out);
    slices::part(out, 0, s.at) == stored
}

// Room for a trace: its text, its stored output, and what it prints.
#[derive(Drop)]
struct Buffers {
    text: [u8; FILE_MOST],
    stored: [u8; FILE_MOST],
    out: [u8; OUTPUT],
}

// Does the trace of a name print what is stored? Not where one of the two files is not whole.
fn agrees<R: Files>(rt: &R, name: &[u8], buffers: &mut Buffers) -> bool {
    let text = read_named(rt, name, b".trace", &mut buffers.text);
    let stored = read_named(rt, name, b".out", &mut buffers.stored);
    match (text, stored) {
        (Some(text), Some(stored)) => passes(text, stored, &mut buffers.out),
        _ => false,
    }
}

// Says that a trace differs, or the list itself. A write that fails changes nothing but what is printed.
fn tell<R: Print>(rt: &R, name: &[u8]) {
    let _ = rt.write_all(name);
    let _ = rt.write_all(b" differs\n");
}

// Does the trace of a name print what is stored? The name of one that differs is printed.
fn judged<R: Files + Print>(rt: &R, name: &[u8], buffers: &mut Buffers) -> bool {
    let good = agrees(rt, name, buffers);
    if !good {
        tell(rt, name);
    }
    good
}

// How many traces of a list print what is stored.
#[tactic(auto, using(text::proofs::Lines::span_line))]
fn count<R: Files + Print>(rt: &R, names: &[u8], buffers: &mut Buffers) -> u64 {
    let mut good: u64 = 0;
    let mut at = 0;
    // A place is carried along: `split` of a slice gives an empty line behind a last line feed.
    while let Some((first, end)) = text::line_at(names, at) {
        good += u64::from(judged(rt, &names[first..end], buffers));
        at = end + 1;
    }
    good
}

fn run<R: Files + Print>(rt: &R, names: &mut [u8; NAMES_MOST], buffers: &mut Buffers) {
    let file = b"names";
    let Some(list) = read_file(rt, file, names) else {
        tell(rt, file);
        return;
    };
    let good = count(rt, list, buffers);
    let _ = println!(rt; "{good} traces print what is stored");
}

fn main(rt: HostRuntime) {
    let mut names = [0u8; NAMES_MOST];
    let mut buffers = Buffers {
        text: [0; FILE_MOST],
        stored: [0; FILE_MOST],
        out: [0; OUTPUT],
    };
    run(&rt, &mut names, &mut buffers);
}
