// The reassembler: what one packet makes of one slot, after the Rust's src/reassemble.rs. The slot's body lies in the pool that the
// caller lends, and a plan says which bytes of the packet go where. Definitions: specs/Enter.antt.
// Leans on `slot` for the record, on `mctp` for header and key, on `stamp` for time.

#![tactic(auto)]

ghost use Rattle.std.specs.Prelude.{◌≡◌, ◌+◌, ◌≤◌, ◌<◌, ◌^◌, ltb, length, Ok};
ghost use Rattle.reassemble.specs.Enter.{is_local, local_packet, opening, opened, gate_reply, begun, appended, append, enter, Planned};
ghost use Rattle.reassemble.specs.declared.Intake.{Intake};

use mctp::{AppCookie, Eid, Error, Header, MsgIC, MsgType};
use slot::{Reassembler, State};
use stamp::EventStamp;

// The slot's next record, and where in its body the packet's bytes from `from` on go; `whole`: the message ends with this packet.
#[derive(Clone, Copy, Debug, PartialEq, Eq)]
pub struct Intake {
    pub slot: Reassembler,
    pub at: usize,
    pub from: usize,
    pub whole: bool,
}

// Whether the destination is the own EID or 0.
#[tactic(auto, unfolding(octets::specs::Pick::pick, crate::specs::Enter::is_local))]
fn is_local(own: Eid, dest: Eid) -> bool
    ensures { result ≡ is_local own dest }
{
    dest == own || dest == Eid::NULL
}

// Whether a packet has a good header and goes to the own EID or 0.
pub fn is_local_dest(own: Eid, packet: &[u8]) -> bool
    ensures { result ≡ local_packet own packet.now }
{
    mctp::read_header(packet).is_some_and(|h| is_local(own, h.key.dest))
}

// Whether a header may open an empty slot: its destination is the own EID or 0, its source is not 255, and it has SOM.
#[tactic(auto, unfolding(octets::specs::Pick::pick, crate::specs::Enter::opening))]
pub fn opens(own: Eid, h: Header) -> bool
    ensures { result ≡ opening own h }
{
    is_local(own, h.key.dest) && h.key.source != Eid::ANY && h.som
}

// A slot that collects under a key, with nothing in it.
pub fn open(h: Header, cookie: Option<AppCookie>) -> Reassembler
    ensures { result ≡ opened h cookie }
{
    Reassembler {
        state: State::Collecting,
        key: h.key,
        cookie,
        ..slot::blank()
    }
}

// A reply opens a slot only where its flow stands, and takes the flow's cookie.
#[tactic(auto, unfolding(octets::specs::Pick::pick, crate::specs::Enter::gate_reply))]
pub fn gate_reply(h: Header, stands: bool, cookie: Option<AppCookie>) -> Result<Reassembler, Error>
    ensures { result ≡ gate_reply h stands cookie }
{
    if stands {
        Ok(open(h, cookie))
    } else {
        Err(Error::Unreachable)
    }
}

// Rule 46: SOM sets type, IC and the sequence to expect, empties the body and stamps the slot. The cookie stays.
fn begin(s: Reassembler, h: Header, kind: u8, stamp: EventStamp) -> Reassembler
    ensures { result ≡ begun stamp h kind s }
{
    let t = mctp::decode_type_ic(kind);
    Reassembler {
        typ: t.typ,
        ic: t.ic,
        next_seq: h.seq,
        len: 0,
        stamp,
        ..s
    }
}

// Rules 49 and 50: the slot with n more bytes; with EOM it is done and stamped, and its handle is out.
#[tactic(auto, unfolding(octets::specs::Pick::pick))]
fn grow(s: Reassembler, eom: bool, stamp: EventStamp, issue: u64, n: usize) -> Reassembler
    requires { s.len + n < 2 ^ 64 }
    ensures { result ≡ appended eom stamp issue n s }
{
    let next_seq = (s.next_seq % 4 + 1) % 4;
    let len = s.len + n;
    if eom {
        return Reassembler {
            state: State::HandleOut(issue),
            next_seq,
            len,
            stamp,
            ..s
        };
    }
    Reassembler { next_seq, len, ..s }
}

// Whether n more bytes are too many for a body of `len` bytes that may have at most `most`.
fn overfills(len: usize, n: usize, most: usize) -> bool
    ensures { result ≡ ltb most (len + n) }
{
    most < len || most - len < n
}

// Rules 47 to 50 for a packet whose body starts at `start`; `most` is the most bytes that a body holds.
#[tactic(auto, unfolding(octets::specs::Pick::pick, crate::specs::Enter::append))]
fn accept(
    s: Reassembler,
    h: Header,
    packet: &[u8],
    start: usize,
    stamp: EventStamp,
    issue: u64,
    most: usize,
) -> Result<Intake, Error>
    ensures { result ≡ append most stamp issue s h packet.now start }
{
    if h.seq != s.next_seq {
        return Err(Error::InvalidInput); // rule 47
    }
    let n = packet.len().saturating_sub(start);
    if overfills(s.len, n, most) {
        return Err(Error::NoSpace); // rule 48
    }
    let slot = grow(s, h.eom, stamp, issue, n);
    Ok(Intake {
        slot,
        at: s.len,
        from: start,
        whole: h.eom,
    })
}

// Rules 45 to 50: what a packet with that header makes of a slot.
pub fn receive(
    s: Reassembler,
    h: Header,
    packet: &[u8],
    stamp: EventStamp,
    issue: u64,
    most: usize,
) -> Result<Intake, Error>
    ensures value { result ≡ enter most stamp issue s h packet.now }
    ensures planned { (4 ≤ length packet.now) → (s.len ≤ most) → (t : Intake) → result ≡ Ok t → Planned t (length packet.now) most }
{
    if h.som {
        if packet.len() < 5 {
            return Err(Error::InvalidInput); // rule 45
        }
        let begun = begin(s, h, packet[4], stamp);
        return accept(begun, h, packet, 5, stamp, issue, most);
    }
    accept(s, h, packet, 4, stamp, issue, most)
}
