// Flows: who owes an answer under which tag, after the Rust's `Flow`, `alloc_tag`, `new_flow`, `set_flow`. A flow is a record by value with a
// codec to a block of 32 bytes; the table itself lies in the state's bytes.
// Leans on `mctp` for EIDs, tags and cookies, on `stamp` for time, on `octets` for bytes. Definitions: specs/Table.antt, Tags.antt, Codec.antt.

#![tactic(auto)]

ghost use Rattle.std.specs.Prelude.{◌≡◌, ◌<◌};
ghost use Rattle.octets.specs.Bytes.{lay};
ghost use Rattle.flows.specs.Tags.{marked};
ghost use Rattle.flows.specs.Table.{no_flow, lasts, new_flow, flow_timeout};
ghost use Rattle.flows.specs.Codec.{expiry_no, expiry_stamp, expiry_of, flow_of, flow_bytes, FlowOk};

use mctp::{AppCookie, Eid, Error, TagValue};
use octets::Uint;
use stamp::{EventStamp, Timeout};

pub mod tags; // tags.rt: tags as bits of a byte, and the search for a free one

#[derive(Clone, Copy, Debug, PartialEq, Eq)]
pub struct Flow {
    pub used: bool,
    pub peer: Eid,
    pub tag: TagValue,
    pub cookie: Option<AppCookie>,
    pub expiry: Option<EventStamp>,
}

// A place that holds no flow.
pub fn no_flow() -> Flow
    ensures { result ≡ no_flow }
{
    Flow {
        used: false,
        peer: Eid(0),
        tag: TagValue(0),
        cookie: None,
        expiry: None,
    }
}

// A new flow; one that expires is stamped.
#[tactic(auto, unfolding(octets::specs::Pick::pick, crate::specs::Table::new_flow))]
pub fn new_flow(
    peer: Eid,
    tag: TagValue,
    expires: bool,
    cookie: Option<AppCookie>,
    stamp: EventStamp,
) -> Flow
    ensures { result ≡ new_flow peer tag expires cookie stamp }
{
    Flow {
        used: true,
        peer,
        tag,
        cookie,
        expiry: expires.then_some(stamp),
    }
}

impl Flow {
    // Whether it has no expiry.
    pub fn is_lasting(self) -> bool
        ensures { result ≡ lasts self }
    {
        self.expiry.is_none()
    }

    // What is left of the flow's time.
    pub fn check_expired(self, now: u64) -> Timeout
        ensures { result ≡ flow_timeout now self }
    {
        match self.expiry {
            None => Timeout::Untimed,
            Some(s) => s.check_timeout(now, config::FLOW_EXPIRY_TIMEOUT),
        }
    }

    // The used-tag byte of a peer, with this flow's tag added where the flow is that peer's.
    #[tactic(auto, unfolding(octets::specs::Pick::pick, crate::specs::Tags::marked))]
    pub fn mark(self, peer: Eid, used: u8) -> u8
        requires { FlowOk self }
        ensures { result ≡ marked peer self used }
    {
        if self.used && self.peer == peer {
            return tags::set_bit(self.tag.0, used);
        }
        used
    }
}

// ---- a flow in 32 bytes

fn expiry_no(e: Option<EventStamp>) -> u8
    ensures { (result ≡ expiry_no e) × (result < 2) }
{
    u8::from(e.is_some())
}

fn expiry_stamp(e: Option<EventStamp>) -> EventStamp
    ensures { result ≡ expiry_stamp e }
{
    e.unwrap_or(EventStamp {
        clock: 0,
        counter: 0,
    })
}

#[tactic(auto, unfolding(octets::specs::Pick::pick, crate::specs::Codec::expiry_of))]
fn expiry_of(n: u8, clock: u64, counter: u32) -> Option<EventStamp>
    ensures { result ≡ expiry_of n clock counter }
{
    (n == 1).then_some(EventStamp { clock, counter })
}

// The flow that `b` starts with; a byte past its end counts as 0.
#[tactic(auto, unfolding(crate::specs::Codec::flow_of))]
pub fn read_flow(b: &[u8]) -> Flow
    ensures { result ≡ flow_of b.now }
{
    Flow {
        used: u8::get(b, 0) == 1,
        peer: Eid(u8::get(b, 1)),
        tag: TagValue(u8::get(b, 2)),
        cookie: mctp::cookie_of(u8::get(b, 4), u64::get(b, 8)),
        expiry: expiry_of(u8::get(b, 6), u64::get(b, 16), u32::get(b, 24)),
    }
}

// Writes the flow's bytes over the front of `b`, as far as they fit.
#[tactic(auto, unfolding(crate::specs::Codec::flow_bytes))]
pub fn write_flow(b: &mut [u8], f: Flow)
    ensures { b.new ≡ lay 0 (flow_bytes f) b.old }
{
    let t = expiry_stamp(f.expiry);
    u8::put(b, 0, u8::from(f.used));
    u8::put(b, 1, f.peer.0);
    u16::put(b, 2, u16::from(f.tag.0));
    u16::put(b, 4, u16::from(mctp::cookie_no(f.cookie)));
    u16::put(b, 6, u16::from(expiry_no(f.expiry)));
    u64::put(b, 8, mctp::cookie_value(f.cookie));
    u64::put(b, 16, t.clock);
    u64::put(b, 24, u64::from(t.counter));
}
