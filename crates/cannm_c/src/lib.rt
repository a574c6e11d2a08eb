// What a C host can call: the conversion to ticks, the filter's decision and the reading of a PDU's header, on numbers
// and byte strings. `include/cannm.h` declares it.
//
// Promises: every answer with its values, refused ones 0, for every number of 32 bits and every byte string. Leaves to
// others: a channel and its state.
#![tactic(auto)]

ghost use Rattle.std.specs.Prelude.{◌≡◌};
ghost use Rattle.cannm_c.specs.Host.{converted_for, decided_for, read_for};

use config::Layout;

// C interface: the three structs and their numbers stand in include/cannm.h.
#[repr(C)]
#[derive(Clone, Copy)]
pub struct TicksResult {
    pub answer: u32,
    pub rule: u32,
    pub ticks: u32,
}

#[repr(C)]
#[derive(Clone, Copy)]
pub struct FilterResult {
    pub answer: u32,
    pub keep: u32,
}

#[repr(C)]
#[derive(Clone, Copy)]
pub struct HeaderResult {
    pub answer: u32,
    pub rule: u32,
    pub sni: u32,
    pub cbv: u32,
}

// Milliseconds in ticks.
#[tactic(auto, unfolding(crate::specs::Host::converted_for))]
#[unsafe(no_mangle)]
pub extern "C" fn cannm_ticks(period: u32, ms: u32) -> TicksResult
    ensures { result ≡ converted_for period ms }
{
    let t = ticks::to_ticks(period as u64, ms as u64);
    let a = answers::ruled(t);
    TicksResult {
        answer: answers::number(a) as u32,
        rule: answers::rule(a) as u32,
        ticks: t.unwrap_or(0) as u32,
    }
}

// The filter's decision, the filter taken as on.
#[tactic(auto, unfolding(crate::specs::Host::decided_for))]
#[unsafe(no_mangle)]
pub extern "C" fn cannm_pn_filter(awake: u32, cbv: u32, pn: &[u8], mask: &[u8]) -> FilterResult
    ensures { result ≡ decided_for awake cbv pn.now mask.now }
{
    let v = filter::decide(awake != 0, cbv, pn, mask);
    FilterResult {
        answer: answers::number(filter::answer(v)) as u32,
        keep: filter::value(v) as u32,
    }
}

// The source node id and the control bit vector of a PDU.
#[tactic(auto, unfolding(crate::specs::Host::read_for))]
#[unsafe(no_mangle)]
pub extern "C" fn cannm_read_pdu(length: u32, sni: u32, cbv: u32, pdu: &[u8]) -> HeaderResult
    ensures { result ≡ read_for length sni cbv pdu.now }
{
    let r = pdu::read_header(
        Layout {
            length: length as u64,
            sni: sni as u64,
            cbv: cbv as u64,
        },
        pdu,
    );
    let a = answers::answer_to(r);
    let header = r.unwrap_or_default();
    HeaderResult {
        answer: answers::number(a) as u32,
        rule: answers::rule(a) as u32,
        sni: header.sni as u32,
        cbv: header.cbv as u32,
    }
}
