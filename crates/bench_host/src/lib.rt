// For measuring alone: a run of many equal calls on one channel, so that the time of a call can be compared with that
// of an independent implementation. Nothing of the product stands on this crate.
//
// Promises: nothing of its results, only that each run ends and goes without an error. Leaves to others: what a call
// does (`tick`, `reception`), and the channel as words (`test_host::exchange`).
#![tactic(auto)]

use channel::state::{Channel, Notes, Reply};

// What a run gave, summed over its calls: the answers' numbers, how many notes were raised, how many frames were sent.
// C interface of the tests: bench/calls declares it.
#[repr(C)]
#[derive(Clone, Copy, Default)]
pub struct Sums {
    pub answers: u32,
    pub notes: u32,
    pub frames: u32,
}

// How many notes a call raised.
fn raised(notes: Notes) -> u32 {
    let states = u32::from(notes.first.is_some()) + u32::from(notes.second.is_some());
    states + u32::from(notes.eira) + u32::from(notes.era)
}

// The sums with one more call. The reply is lent: its channel would be copied.
fn with(s: Sums, r: &Reply) -> Sums {
    Sums {
        answers: s.answers.wrapping_add(answers::number(r.answer) as u32),
        notes: s.notes.wrapping_add(raised(r.notes)),
        frames: s.frames.wrapping_add(u32::from(r.sent)),
    }
}

// So many equal calls on the channel of the words.
fn run<F: FnMut(Channel) -> Reply>(words: &mut [u64], count: u32, mut call: F) -> Sums
    requires { F.IsAlwaysCallable call }
{
    let mut ch = test_host::exchange::channel_in(words);
    let mut sums = Sums::default();
    for _ in 0..count {
        let r = call(ch);
        sums = with(sums, &r);
        ch = r.channel;
    }
    test_host::exchange::put_channel(words, ch);
    sums
}

// Ticks of the main function, with a driver that takes every frame.
#[unsafe(no_mangle)]
pub extern "C" fn bench_ticks(words: &mut [u64], count: u32, frame: &mut [u8]) -> Sums {
    run(words, count, |ch| tick::main_function(ch, true, frame))
}

// The same PDU, received again and again.
#[unsafe(no_mangle)]
pub extern "C" fn bench_received(words: &mut [u64], count: u32, pdu: &[u8]) -> Sums {
    run(words, count, |ch| reception::rx_indication(ch, pdu))
}
