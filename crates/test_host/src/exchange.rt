// The whole channel as numbers that a test lends, and every call on such a channel, so that its state can be compared
// with an independent implementation's after each call. A channel that is not sound can be handed in as well.
//
// A channel takes 177 words:
//   0    the configuration's numbers, as for `test_first_broken_rule`
//   20   the mask
//   28   the times in ticks: timeout, wait, repeat, cycle, offset, fast, remote, reset
//   36   state, requested, sending, filter, NM timer, wait timer, repeat timer
//   43   message timer, fast count, remote timer, indicated, repeat bit, active-wakeup bit
//   49   user data
//   57   PN requests
//   65   ERA timers
//   121  EIRA timers
// A word that is too large for its field is cut to the field's bits; any word but 0 is a flag that is set, and any
// word above 3 is Ready Sleep.
use super::Answered;
use channel::state::{Channel, Own, Reply};
use config::{Config, PDU_MOST, PN_MOST, Partial, Ticks, Times};
use states::{Mode, Note, State, Traffic};

// How many words a channel takes.
pub const WORDS: usize = 177;

// The answer where no call was made: the words are too few or too many, or there is no such call. A number, as C gets it.
pub const NO_CALL: u32 = 255;

// C interface of the tests: the two structs and their numbers, as tests/compare declares them.

// What a call gave: the notes by their number (0 none, 1 NM, 2 ST, 3 PB, 4 BS, 5 TO, 6 RC, 7 RI), then whether EI and ER
// were raised, and whether a frame was sent.
#[repr(C)]
#[derive(Clone, Copy, Default)]
pub struct Called {
    pub answer: u32,
    pub rule: u32,
    pub first: u32,
    pub second: u32,
    pub ei: u32,
    pub er: u32,
    pub sent: u32,
}

#[repr(C)]
#[derive(Clone, Copy)]
pub struct Shown {
    pub answer: u32,
    pub rule: u32,
    pub state: u32,
    pub count: u32,
    pub lowest: u32,
}

// ---- a channel of words

// What a field takes of a word.
trait FromWord: Copy {
    fn from_word(word: u64) -> Self;
}

impl FromWord for u8 {
    fn from_word(word: u64) -> u8 {
        (word % 256) as u8
    }
}

impl FromWord for u16 {
    fn from_word(word: u64) -> u16 {
        (word % 65536) as u16
    }
}

impl FromWord for bool {
    fn from_word(word: u64) -> bool {
        word != 0
    }
}

// The field at word k.
fn get<T: FromWord>(w: &[u64], k: usize) -> T {
    T::from_word(super::at(w, k))
}

// The fields from word k on; those past the end stay.
fn get_all<T: FromWord>(w: &[u64], k: usize, xs: &mut [T]) {
    for (x, word) in xs.iter_mut().zip(w.iter().skip(k)) {
        *x = T::from_word(*word);
    }
}

fn state_of(number: u64) -> State {
    match number {
        0 => State::BusSleep,
        1 => State::PrepareBusSleep,
        2 => State::RepeatMessage,
        3 => State::NormalOperation,
        _ => State::ReadySleep,
    }
}

fn config_in(w: &[u64]) -> Config {
    let mut mask = [0; PDU_MOST];
    get_all(w, 20, &mut mask);
    super::config_of(w, &mask)
}

// The words of the times in ticks.
const TICKS_AT: Times<usize> = Times {
    timeout: 28,
    wait: 29,
    repeat: 30,
    cycle: 31,
    offset: 32,
    fast: 33,
    remote: 34,
    reset: 35,
};

fn ticks_in(w: &[u64]) -> Ticks {
    TICKS_AT.map(|k| get(w, k))
}

fn mode_in(w: &[u64]) -> Mode {
    Mode {
        state: state_of(super::at(w, 36)),
        requested: get(w, 37),
        sending: get(w, 38),
        filter: get(w, 39),
        nm: get(w, 40),
        wait: get(w, 41),
        repeat: get(w, 42),
    }
}

fn traffic_in(w: &[u64]) -> Traffic {
    Traffic {
        message: get(w, 43),
        fast: get(w, 44),
        remote: get(w, 45),
        indicated: get(w, 46),
        repeating: get(w, 47),
        waking: get(w, 48),
    }
}

pub fn channel_in(w: &[u64]) -> Channel {
    let mut own = Own {
        config: config_in(w),
        ticks: ticks_in(w),
        mode: mode_in(w),
        traffic: traffic_in(w),
        user: [0; PDU_MOST],
        requests: [0; PDU_MOST],
        era: [0; Channel::TIMERS],
    };
    let mut eira = [0; Channel::TIMERS];
    get_all(w, 49, &mut own.user);
    get_all(w, 57, &mut own.requests);
    get_all(w, 65, &mut own.era);
    get_all(w, 121, &mut eira);
    Channel { own, eira }
}

// ---- the words of a channel

// A number in its word.
fn put<T: Into<u64>>(w: &mut [u64], k: usize, x: T) {
    slices::put(w, k, x.into());
}

// Numbers in the words from k on.
fn put_all<T: Copy + Into<u64>>(w: &mut [u64], k: usize, xs: &[T]) {
    for (word, x) in w.iter_mut().skip(k).zip(xs) {
        *word = (*x).into();
    }
}

// Times in their words. They come as a slice: `each` of a type parameter asks for a bound on its size.
fn put_times<T: Copy + Into<u64>>(w: &mut [u64], places: Times<usize>, times: &[T]) {
    for (k, time) in places.each().iter().zip(times) {
        put(w, *k, *time);
    }
}

fn put_layout(w: &mut [u64], c: Config) {
    put(w, 0, c.period);
    put(w, 6, c.immediate);
    put(w, 9, c.passive);
    put(w, 10, c.layout.length);
    put(w, 11, c.layout.sni);
    put(w, 12, c.layout.cbv);
    put(w, 13, c.node);
}

fn put_partial(w: &mut [u64], pn: Partial) {
    put(w, 14, pn.on);
    put(w, 15, pn.start);
    put(w, 16, pn.length);
    put(w, 18, pn.awake);
    put(w, 19, pn.masked);
    put_all(w, 20, &pn.mask);
}

fn put_mode(w: &mut [u64], m: Mode) {
    put(w, 36, states::state_number(m.state));
    put(w, 37, m.requested);
    put(w, 38, m.sending);
    put(w, 39, m.filter);
    put(w, 40, m.nm);
    put(w, 41, m.wait);
    put(w, 42, m.repeat);
}

fn put_traffic(w: &mut [u64], x: Traffic) {
    put(w, 43, x.message);
    put(w, 44, x.fast);
    put(w, 45, x.remote);
    put(w, 46, x.indicated);
    put(w, 47, x.repeating);
    put(w, 48, x.waking);
}

fn put_tables(w: &mut [u64], ch: Channel) {
    put_all(w, 49, &ch.own.user);
    put_all(w, 57, &ch.own.requests);
    put_all(w, 65, &ch.own.era);
    put_all(w, 121, &ch.eira);
}

pub fn put_channel(w: &mut [u64], ch: Channel) {
    put_times(w, super::TIMES_AT, &ch.own.config.times.each());
    put_layout(w, ch.own.config);
    put_partial(w, ch.own.config.pn);
    put_times(w, TICKS_AT, &ch.own.ticks.each());
    put_mode(w, ch.own.mode);
    put_traffic(w, ch.own.traffic);
    put_tables(w, ch);
}

// ---- the calls

// The number of a note in the order of its enum, from 1; 0 for none.
fn note_number(note: Option<Note>) -> u32 {
    match note {
        None => 0,
        Some(n) => 1 + n as u32,
    }
}

fn outcome(r: &Reply) -> Called {
    Called {
        answer: answers::number(r.answer) as u32,
        rule: answers::rule(r.answer) as u32,
        first: note_number(r.notes.first),
        second: note_number(r.notes.second),
        ei: u32::from(r.notes.eira),
        er: u32::from(r.notes.era),
        sent: u32::from(r.sent),
    }
}

// A call by its number; the main function where no other has it.
fn reply_of(ch: Channel, call: u32, set: bool, bytes: &[u8], frame: &mut [u8]) -> Reply {
    match call {
        0 => calls::network_request(ch),
        1 => calls::network_release(ch),
        2 => calls::passive_start_up(ch),
        3 => calls::repeat_message_request(ch),
        4 => calls::disable_communication(ch),
        5 => calls::enable_communication(ch),
        6 => calls::tx_confirmation(ch, set),
        7 => reception::rx_indication(ch, bytes),
        8 => calls::confirm_pn_availability(ch),
        9 => inputs::set_user_data(ch, bytes),
        10 => inputs::set_pn_requests(ch, bytes),
        _ => tick::main_function(ch, set, frame),
    }
}

fn is_call(call: u32) -> bool {
    matches!(call, 0..=10 | 12)
}

// Initialises a channel of a configuration.
pub fn test_initialise(numbers: &[u64], mask: &[u8], words: &mut [u64]) -> Answered {
    let s = Channel::initialise(super::config_of(numbers, mask));
    put_channel(words, s.channel);
    Answered::from(s.answer)
}

// Every call but status (11). The flag is the confirmation's or the main function's, the bytes are those of the calls
// that take some, and the frame is the main function's.
pub fn test_call(
    words: &mut [u64],
    call: u32,
    flag: u32,
    bytes: &[u8],
    frame: &mut [u8],
) -> Called {
    if words.len() == WORDS && is_call(call) {
        let r = reply_of(channel_in(words), call, flag != 0, bytes, frame);
        put_channel(words, r.channel);
        return outcome(&r);
    }
    Called {
        answer: NO_CALL,
        ..Called::default()
    }
}

fn put_vector(vector: &[u8; PN_MOST], out: &mut [u8]) {
    out.fill(0);
    slices::copy(vector, out);
}

// Status, with both vectors in the first seven of the lent bytes and 0 behind them.
pub fn test_status(words: &[u64], era: &mut [u8], eira: &mut [u8]) -> Shown {
    let s = status::status(channel_in(words));
    put_vector(&s.era, era);
    put_vector(&s.eira, eira);
    Shown {
        answer: answers::number(s.answer) as u32,
        rule: answers::rule(s.answer) as u32,
        state: s.state as u32,
        count: s.count,
        lowest: s.lowest,
    }
}
