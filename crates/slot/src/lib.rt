// A slot as a record by value, after the Rust's `Reassembler` in src/reassemble.rs: its states, what it matches, what a handle and time do to it.
// The handle that goes out with a message is here too. Definitions: specs/Slot.antt; which slot of a list: specs/Search.antt; the handle: specs/Handle.antt.
// Leans on `mctp` for the key, on `stamp` for time.

#![tactic(auto)]

ghost use Rattle.std.specs.Prelude.{◌≡◌, false};
ghost use Rattle.slot.specs.Handle.{next_issue};
ghost use Rattle.slot.specs.Slot.{blank_slot, state_no, is_empty, is_done, handle_is, handle_taken, is_reply, kept_under, slot_timeout, with_state, with_slot_cookie};

use mctp::{AppCookie, Eid, Key, MsgIC, MsgType, TagValue};
use stamp::{EventStamp, Timeout};

// A slot's index, and the number under which its handle went out.
#[derive(Clone, Copy, Debug, PartialEq, Eq)]
pub struct ReceiveHandle {
    pub index: usize,
    pub issue: u64,
}

// The number of the next handle that goes out.
#[tactic(auto, unfolding(octets::specs::Pick::pick, crate::specs::Handle::next_issue))]
pub fn next_issue(issue: u64) -> u64
    ensures { result ≡ next_issue issue }
{
    issue.saturating_add(1)
}

// Empty, collecting, or done: with no handle out, or with one of that issue number.
#[derive(Clone, Copy, Debug, PartialEq, Eq)]
pub enum State {
    Empty,
    Collecting,
    Done,
    HandleOut(u64),
}

#[derive(Clone, Copy, Debug, PartialEq, Eq)]
pub struct Reassembler {
    pub state: State,
    pub key: Key,
    pub typ: MsgType,
    pub ic: MsgIC,
    pub next_seq: u8,
    pub len: usize,
    pub cookie: Option<AppCookie>,
    // the stamp of SOM while collecting, of EOM when done
    pub stamp: EventStamp,
}

pub fn blank() -> Reassembler
    ensures { result ≡ blank_slot }
{
    let key = Key {
        source: Eid(0),
        dest: Eid(0),
        owner: false,
        tag: TagValue(0),
    };
    let stamp = EventStamp {
        clock: 0,
        counter: 0,
    };
    Reassembler {
        state: State::Empty,
        key,
        typ: MsgType(0),
        ic: MsgIC(false),
        next_seq: 0,
        len: 0,
        cookie: None,
        stamp,
    }
}

impl Reassembler {
    // The state's number: 0 empty, 1 collecting, 2 done, 3 with a handle out.
    pub fn phase(self) -> u8
        ensures { result ≡ state_no self.state }
    {
        match self.state {
            State::Empty => 0,
            State::Collecting => 1,
            State::Done => 2,
            State::HandleOut(_) => 3,
        }
    }

    pub fn is_empty(self) -> bool
        ensures { result ≡ is_empty self }
    {
        matches!(self.state, State::Empty)
    }

    // Whether it is done with no handle out.
    pub fn is_done(self) -> bool
        ensures { result ≡ is_done self }
    {
        self.state == State::Done
    }

    // Whether a handle is out.
    pub fn handle_taken(self) -> bool
        ensures { result ≡ handle_taken self }
    {
        matches!(self.state, State::HandleOut(_))
    }

    // Whether the handle of that issue number is out.
    pub fn handle_is(self, issue: u64) -> bool
        ensures { result ≡ handle_is issue self }
    {
        self.state == State::HandleOut(issue)
    }

    pub fn take_handle(self, issue: u64) -> Reassembler
        ensures { result ≡ with_state (State.HandleOut issue) self }
    {
        Reassembler {
            state: State::HandleOut(issue),
            ..self
        }
    }

    pub fn return_handle(self) -> Reassembler
        ensures { result ≡ with_state State.Done self }
    {
        Reassembler {
            state: State::Done,
            ..self
        }
    }

    pub fn set_cookie(self, cookie: Option<AppCookie>) -> Reassembler
        ensures { result ≡ with_slot_cookie cookie self }
    {
        Reassembler { cookie, ..self }
    }

    // What is left of the slot's time; no time runs for an empty slot or one with a handle out.
    pub fn check_expired(self, now: u64) -> Timeout
        ensures { result ≡ slot_timeout now self }
    {
        match self.state {
            State::Empty | State::HandleOut(_) => Timeout::Untimed,
            State::Collecting | State::Done => self
                .stamp
                .check_timeout(now, config::REASSEMBLY_EXPIRY_TIMEOUT),
        }
    }
}

// Whether it is from that peer, under that TO and tag.
#[tactic(auto, unfolding(octets::specs::Pick::pick, mctp::specs::Terms::same_bool, crate::specs::Slot::kept_under))]
pub fn is_from(s: Reassembler, peer: Eid, owner: bool, tag: TagValue) -> bool
    ensures { result ≡ kept_under peer owner tag s }
{
    // one test after the other: a cancel's walk leaves most slots at the first
    if s.key.source != peer {
        return false;
    }
    s.key.owner == owner && s.key.tag == tag
}

// Whether the slot is not empty and holds a reply of that peer and tag.
#[tactic(auto, unfolding(octets::specs::Pick::pick, crate::specs::Slot::is_reply))]
pub fn is_reply(s: Reassembler, peer: Eid, tag: TagValue) -> bool
    ensures { result ≡ is_reply peer tag s }
{
    if s.is_empty() {
        return false;
    }
    is_from(s, peer, false, tag)
}
