// Sending: `start_send` of docs/RULES.md 65 to 68, after the Rust's `Stack` in src/lib.rs. It looks at type and tag, the flow, the sequence and the MTU, in
// that order.
// Definitions: specs/Sends.antt.
// Leans on `flow_walks` for the flows in the state's bytes, on `fragment` for the fragmenter that comes out.

#![tactic(auto)]

ghost use Rattle.std.specs.Prelude.{◌≡◌};
ghost use Rattle.state.specs.Stack.{Kept, Becomes, stack_of};
ghost use Rattle.sending.specs.Sends.{bad_tag, mtu_of, send_under, owned_tag, tag_for, start_send_of};

use fragment::Fragmenter;
use mctp::{AppCookie, Eid, Error, MsgIC, MsgType, Tag, TagValue};
use state::Sizes;

#[derive(Clone, Copy, Debug, PartialEq, Eq)]
pub struct Send {
    pub dest: Eid,
    pub typ: MsgType,
    // none asks for a fresh tag of our own
    pub tag: Option<Tag>,
    pub expires: bool,
    pub ic: MsgIC,
    // how long a packet of this message may be, at most: none leaves it to the stack's MTU alone
    pub mtu: Option<usize>,
    pub cookie: Option<AppCookie>,
}

fn mtu_for(mtu: Option<usize>, own: usize) -> usize
    ensures { result ≡ mtu_of mtu own }
{
    mtu.map_or(own, |n| own.min(n))
}

fn is_bad_tag(tag: Option<Tag>) -> bool
    ensures { result ≡ bad_tag tag }
{
    tag.is_some_and(|t| 7 < t.tag().0)
}

// The sequence goes up, and then the fragmenter is made, or refused for its MTU.
fn send_under(state: &mut [u8], sizes: Sizes, send: Send, tag: Tag) -> Result<Fragmenter, Error>
    requires { Kept sizes state.old }
    ensures { (result ≡ (send_under send tag (stack_of sizes state.old)).said) × Becomes sizes state.old state.new (send_under send tag (stack_of sizes state.old)).stack }
{
    let own = state::own_eid(state, sizes);
    let mtu = mtu_for(send.mtu, state::mtu_at(state, sizes));
    let seq = state::next_seq(state, sizes);
    Fragmenter::new(
        send.typ,
        own,
        send.dest,
        tag,
        mtu,
        send.cookie,
        send.ic,
        seq,
    )
}

// A tag of our own: its flow is set.
#[tactic(auto, unfolding(crate::specs::Sends::owned_tag))]
fn owned_tag(
    state: &mut [u8],
    sizes: Sizes,
    dest: Eid,
    wish: Option<TagValue>,
    expires: bool,
    cookie: Option<AppCookie>,
) -> Result<Tag, Error>
    requires { Kept sizes state.old }
    ensures { (result ≡ (owned_tag dest wish expires cookie (stack_of sizes state.old)).said) × Becomes sizes state.old state.new (owned_tag dest wish expires cookie (stack_of sizes state.old)).stack }
{
    let granted = flow_walks::set_flow(state, sizes, dest, wish, expires, cookie)?;
    Ok(Tag::Owned(granted))
}

// The tag that a send asks for. The other side's tag needs no flow.
#[tactic(auto, using(state::proofs::StackLaws::stays), unfolding(crate::specs::Sends::tag_for))]
fn tag_for(
    state: &mut [u8],
    sizes: Sizes,
    dest: Eid,
    tag: Option<Tag>,
    expires: bool,
    cookie: Option<AppCookie>,
) -> Result<Tag, Error>
    requires { Kept sizes state.old }
    ensures { (result ≡ (tag_for dest tag expires cookie (stack_of sizes state.old)).said) × Becomes sizes state.old state.new (tag_for dest tag expires cookie (stack_of sizes state.old)).stack }
{
    match tag {
        None => owned_tag(state, sizes, dest, None, expires, cookie),
        Some(Tag::Owned(t)) => owned_tag(state, sizes, dest, Some(t), expires, cookie),
        Some(Tag::Unowned(t)) => Ok(Tag::Unowned(t)),
    }
}

// Starts a send: a fragmenter for the message, or a refusal.
#[tactic(auto, using(state::proofs::StackLaws::stays), unfolding(crate::specs::Sends::start_send_of, crate::specs::Sends::send_as, octets::specs::Pick::pick))]
pub fn start_send(state: &mut [u8], sizes: Sizes, send: Send) -> Result<Fragmenter, Error>
    requires { Kept sizes state.old }
    ensures { (result ≡ (start_send_of send (stack_of sizes state.old)).said) × Becomes sizes state.old state.new (start_send_of send (stack_of sizes state.old)).stack }
{
    if 127 < send.typ.0 || is_bad_tag(send.tag) {
        return Err(Error::InvalidInput);
    }
    let tag = tag_for(state, sizes, send.dest, send.tag, send.expires, send.cookie)?;
    send_under(state, sizes, send, tag)
}
