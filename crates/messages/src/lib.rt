// A handed-out message: a record that borrows its body from the pool, after the Rust's MctpMessage.
// `lend_message` makes it; `lend_body` and `copy_body` are for callers that need the body alone. Definitions: specs/Message.antt.
// Leans on `handles` for the facts of a message, by value, and on `copying` for the copy.

#![tactic(auto)]

ghost use Rattle.std.specs.Prelude.{◌≡◌, length};
ghost use Rattle.octets.specs.Bytes.{over, part};
ghost use Rattle.messages.specs.Message.{body_of, message_of, front_of};

use handles::Message;
use mctp::{AppCookie, Eid, MsgIC, MsgType, Tag};

#[derive(Clone, Copy, Debug, PartialEq, Eq)]
pub struct MctpMessage<'a> {
    pub source: Eid,
    pub dest: Eid,
    pub tag: Tag,
    pub typ: MsgType,
    pub ic: MsgIC,
    pub cookie: Option<AppCookie>,
    pub payload: &'a [u8],
}

// `len` bytes from byte `at`, as far as there are any.
fn stretch(bytes: &[u8], at: usize, len: usize) -> &[u8]
    ensures { result.now ≡ part at len bytes.now }
{
    let rest = &bytes[at.min(bytes.len())..];
    &rest[..len.min(rest.len())]
}

// The message of these facts, with its body lent from the pool.
pub fn lend_message<'a>(pool: &'a [u8], facts: Message) -> MctpMessage<'a>
    ensures fields { result ≡ message_of facts result.payload }
    ensures body { result.payload.now ≡ body_of facts pool.now }
{
    MctpMessage {
        source: facts.key.source,
        dest: facts.key.dest,
        tag: Tag::of(facts.key.owner, facts.key.tag),
        typ: facts.typ,
        ic: facts.ic,
        cookie: facts.cookie,
        payload: stretch(pool, facts.at, facts.len),
    }
}

// The body alone, which it takes from the message, for callers that need no more.
pub fn lend_body<'a>(pool: &'a [u8], facts: Message) -> &'a [u8]
    ensures { result.now ≡ body_of facts pool.now }
{
    lend_message(pool, facts).payload
}

// Copies as much of the body as the buffer holds over its front, and tells how many bytes that is.
pub fn copy_body(pool: &[u8], facts: Message, out: &mut [u8]) -> usize
    ensures count { result ≡ length (front_of facts pool.now (length out.old)) }
    ensures bytes { out.new ≡ over 0 (front_of facts pool.now (length out.old)) out.old }
{
    let body = lend_body(pool, facts);
    let n = out.len().min(body.len());
    copying::copy(out, body);
    n
}
