// For tests alone: the functions of `test_host` as symbols for C. Nothing of the product stands on this crate.
//
// Promises: nothing of its results, only that each function ends and goes without an error.
#![tactic(auto)]

use test_host::exchange::{Called, Shown};
use test_host::{Answered, Place, Read};

#[unsafe(no_mangle)]
pub extern "C" fn test_first_broken_rule(numbers: &[u64], mask: &[u8]) -> u32 {
    test_host::test_first_broken_rule(numbers, mask)
}

#[unsafe(no_mangle)]
pub extern "C" fn test_compose(
    numbers: &[u64],
    mask: &[u8],
    sni: u32,
    cbv: u32,
    pn: &[u8],
    user: &[u8],
    frame: &mut [u8],
) -> Answered {
    test_host::test_compose(numbers, mask, sni, cbv, pn, user, frame)
}

#[unsafe(no_mangle)]
pub extern "C" fn test_read(
    numbers: &[u64],
    mask: &[u8],
    pdu: &[u8],
    pn: &mut [u8],
    user: &mut [u8],
) -> Read {
    test_host::test_read(numbers, mask, pdu, pn, user)
}

#[unsafe(no_mangle)]
pub extern "C" fn test_pnc_number(start: u32, length: u32, bit: u32) -> Place {
    test_host::test_pnc_number(start, length, bit)
}

#[unsafe(no_mangle)]
pub extern "C" fn test_pnc_bit(start: u32, length: u32, number: u32) -> Place {
    test_host::test_pnc_bit(start, length, number)
}

#[unsafe(no_mangle)]
pub extern "C" fn test_initialise(numbers: &[u64], mask: &[u8], words: &mut [u64]) -> Answered {
    test_host::exchange::test_initialise(numbers, mask, words)
}

#[unsafe(no_mangle)]
pub extern "C" fn test_call(
    words: &mut [u64],
    call: u32,
    flag: u32,
    bytes: &[u8],
    frame: &mut [u8],
) -> Called {
    test_host::exchange::test_call(words, call, flag, bytes, frame)
}

#[unsafe(no_mangle)]
pub extern "C" fn test_status(words: &[u64], era: &mut [u8], eira: &mut [u8]) -> Shown {
    test_host::exchange::test_status(words, era, eira)
}
