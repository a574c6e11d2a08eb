// For tests alone: what the C host does not export, on numbers and byte strings, so that it can be compared with an
// independent implementation. Nothing of the product stands on this crate.
//
// Promises: nothing of its results, only that each function ends and goes without an error. Leaves to others: what a C host
// is given (`cannm_c`), the calls themselves, and the symbols for C (`test_host_c`).
#![tactic(auto)]

use answers::Answer;
use config::{Config, Layout, PDU_MOST, Partial, Times};
use layout::PduFields;
use pnc::{PnRange, PncNumber, VectorBit};

pub mod exchange;

// C interface of the tests: the three structs and their numbers, as tests/compare declares them.
#[repr(C)]
#[derive(Clone, Copy)]
pub struct Answered {
    pub answer: u32,
    pub rule: u32,
}

#[repr(C)]
#[derive(Clone, Copy)]
pub struct Read {
    pub answer: u32,
    pub rule: u32,
    pub sni: u32,
    pub cbv: u32,
}

#[repr(C)]
#[derive(Clone, Copy, Default)]
pub struct Place {
    pub inside: u32,
    pub value: u32,
}

impl From<Answer> for Answered {
    fn from(a: Answer) -> Answered {
        Answered {
            answer: answers::number(a) as u32,
            rule: answers::rule(a) as u32,
        }
    }
}

impl From<Option<u32>> for Place {
    fn from(value: Option<u32>) -> Place {
        match value {
            Some(value) => Place { inside: 1, value },
            None => Place::default(),
        }
    }
}

// Number k, 0 past the end.
fn at(numbers: &[u64], k: usize) -> u64 {
    numbers.get(k).copied().unwrap_or(0)
}

// The first eight bytes of a mask.
fn mask_of(bytes: &[u8]) -> [u8; PDU_MOST] {
    let mut mask = [0; PDU_MOST];
    slices::copy(bytes, &mut mask);
    mask
}

// The numbers of the times in milliseconds.
const TIMES_AT: Times<usize> = Times {
    timeout: 1,
    wait: 2,
    repeat: 3,
    cycle: 4,
    offset: 5,
    fast: 7,
    remote: 8,
    reset: 17,
};

// The configuration of twenty numbers and a mask.
fn config_of(n: &[u64], mask: &[u8]) -> Config {
    let layout = Layout {
        length: at(n, 10),
        sni: at(n, 11),
        cbv: at(n, 12),
    };
    let pn = Partial {
        on: at(n, 14) != 0,
        start: at(n, 15),
        length: at(n, 16),
        awake: at(n, 18) != 0,
        masked: at(n, 19),
        mask: mask_of(mask),
    };
    Config {
        period: at(n, 0),
        times: TIMES_AT.map(|k| at(n, k)),
        immediate: at(n, 6),
        node: at(n, 13),
        passive: at(n, 9) != 0,
        layout,
        pn,
    }
}

pub fn test_first_broken_rule(numbers: &[u64], mask: &[u8]) -> u32 {
    answers::rule(answers::ruled(rules::first_broken_rule(config_of(numbers, mask)))) as u32
}

pub fn test_compose(
    numbers: &[u64],
    mask: &[u8],
    sni: u32,
    cbv: u32,
    pn: &[u8],
    user: &[u8],
    frame: &mut [u8],
) -> Answered {
    let fields = PduFields {
        sni: (sni % 256) as u8,
        cbv: (cbv % 256) as u8,
        pn,
        user,
    };
    Answered::from(pdu::compose(config_of(numbers, mask), fields, frame))
}

pub fn test_read(numbers: &[u64], mask: &[u8], pdu: &[u8], pn: &mut [u8], user: &mut [u8]) -> Read {
    let r = pdu::read(config_of(numbers, mask), pdu, pn, user);
    let a = answers::answer_to(r);
    let header = r.unwrap_or_default();
    Read {
        answer: answers::number(a) as u32,
        rule: answers::rule(a) as u32,
        sni: header.sni as u32,
        cbv: header.cbv as u32,
    }
}

fn range_of(start: u32, length: u32) -> PnRange {
    PnRange {
        start: (start % 65536) as u16,
        length: (length % 65536) as u16,
    }
}

pub fn test_pnc_number(start: u32, length: u32, bit: u32) -> Place {
    let number = VectorBit(bit).number(range_of(start, length));
    Place::from(number.map(|number| number.0))
}

pub fn test_pnc_bit(start: u32, length: u32, number: u32) -> Place {
    let bit = PncNumber(number).bit(range_of(start, length));
    Place::from(bit.map(|bit| bit.0))
}
