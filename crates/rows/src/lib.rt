// Rows of 64-bit numbers read as records: a send, a fragmenter; and what a call answers in numbers, with the rows of what it tells (answers.rt).
// Yes is written 1 and no 0; any number but 0 is read as yes. Definitions: specs/Words.antt, specs/Answers.antt.
// Leans on `mctp`, `fragment` and `sending` for the records.

#![tactic(auto)]

mod answers;

ghost use Rattle.std.specs.Prelude.{◌≡◌};
ghost use Rattle.rows.specs.Words.{is_yes, narrow, tag_from, cookie_from, advanced_row, fragmenter_of, good_send, send_of, send_tag_from, send_mtu_from};

pub use answers::{Row, done_no, put, put_step};
use fragment::Fragmenter;
use mctp::{AppCookie, Eid, MsgIC, MsgType, Tag, TagValue};
use sending::Send;

pub fn is_yes(w: u64) -> bool
    ensures { result ≡ is_yes w }
{
    0 < w
}

// The low byte.
pub fn narrow(w: u64) -> u8
    ensures { result ≡ narrow w }
{
    (w % 256) as u8
}

pub fn tag_from(owner: bool, tag: u8) -> Tag
    ensures { result ≡ tag_from owner tag }
{
    Tag::of(owner, TagValue(tag))
}

pub fn cookie_from(has: bool, value: u64) -> Option<AppCookie>
    ensures { result ≡ cookie_from has value }
{
    has.then_some(AppCookie(value))
}

// ---- a send

// Whether the row is a good send: destination, type and a given tag are bytes, and the kind of tag is one of the three. For a fresh tag word 3 is not looked at.
#[tactic(auto, unfolding(crate::specs::Words::good_send))]
pub fn is_good_send(w: &[u64; 10]) -> bool
    ensures { result ≡ good_send w.now }
{
    w[0] <= 255 && w[1] <= 255 && w[2] <= 2 && (w[2] == 0 || w[3] <= 255)
}

#[tactic(auto, unfolding(crate::specs::Words::send_tag_from, octets::specs::Pick::pick))]
fn send_tag_from(kind: u64, tag: u8) -> Option<Tag>
    ensures { result ≡ send_tag_from kind tag }
{
    match kind {
        0 => None,
        1 => Some(Tag::Owned(TagValue(tag))),
        _ => Some(Tag::Unowned(TagValue(tag))),
    }
}

fn send_mtu_from(has: bool, mtu: u64) -> Option<usize>
    ensures { result ≡ send_mtu_from has mtu }
{
    has.then_some(mtu as usize)
}

pub fn send_of(w: &[u64; 10]) -> Send
    ensures { result ≡ send_of w.now }
{
    Send {
        dest: Eid(narrow(w[0])),
        typ: MsgType(narrow(w[1])),
        tag: send_tag_from(w[2], narrow(w[3])),
        expires: is_yes(w[4]),
        ic: MsgIC(is_yes(w[5])),
        mtu: send_mtu_from(is_yes(w[6]), w[7]),
        cookie: cookie_from(is_yes(w[8]), w[9]),
    }
}

// ---- a fragmenter

// Stores what a packet moves: sequence, first, done and the bytes sent.
pub fn advance(w: &mut [u64; 13], next: Fragmenter)
    ensures { w.new ≡ advanced_row next w.old }
{
    w[6] = u64::from(next.seq);
    w[8] = u64::from(next.first);
    w[9] = u64::from(next.done);
    w[12] = next.payload_used as u64;
}

pub fn fragmenter_of(w: &[u64; 13]) -> Fragmenter
    ensures { result ≡ fragmenter_of w.now }
{
    Fragmenter {
        src: Eid(narrow(w[0])),
        dest: Eid(narrow(w[1])),
        typ: MsgType(narrow(w[2])),
        tag: tag_from(is_yes(w[3]), narrow(w[4])),
        ic: MsgIC(is_yes(w[5])),
        seq: narrow(w[6]),
        mtu: w[7] as usize,
        first: is_yes(w[8]),
        done: is_yes(w[9]),
        cookie: cookie_from(is_yes(w[10]), w[11]),
        payload_used: w[12] as usize,
    }
}
