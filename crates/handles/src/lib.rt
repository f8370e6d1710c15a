// Handling: fetch, finish, return and set cookie under a handle, and the deferred lookups that give one out; after the Rust's `Stack` in src/lib.rs.
// Definitions: specs/Handles.antt.
// Leans on `slot_walks` for the search of the earliest message, on `slot` for the count of handles, on `state` for the bytes.

#![tactic(auto)]

ghost use Rattle.std.specs.Prelude.{◌≡◌, ◌<◌, length, IfOk, IfErr, IfSome, unwrap_or};
ghost use Rattle.state.specs.Stack.{Kept, Becomes, stack_of};
ghost use Rattle.handles.specs.Handles.{IsUnder, IsBad, finish_of, return_of, set_cookie_of, fetch_of, take_of, by_source_of, by_cookie_of};

use mctp::{AppCookie, Eid, Error, Key, MsgIC, MsgType, Tag};
use slot::{Reassembler, ReceiveHandle};
use state::Sizes;

// A message: its body is `len` bytes of the pool from byte `at`.
#[derive(Clone, Copy, Debug, PartialEq, Eq)]
pub struct Message {
    pub key: Key,
    pub typ: MsgType,
    pub ic: MsgIC,
    pub cookie: Option<AppCookie>,
    pub at: usize,
    pub len: usize,
}

// The slot under a good handle: its handle is out, under this number. Any other handle is BadArgument.
#[tactic(auto, using(state::proofs::StackLaws::slots_length), unfolding(crate::specs::Handles::is_good, octets::specs::Pick::pick))]
fn good_slot(state: &[u8], sizes: Sizes, handle: ReceiveHandle) -> Result<Reassembler, Error>
    requires { Kept sizes state.now }
    ensures good { IfOk result (IsUnder sizes.body handle (stack_of sizes state.now)) }
    ensures bad { IfErr result (IsBad handle (stack_of sizes state.now)) }
{
    if sizes.slots <= handle.index {
        return Err(Error::BadArgument);
    }
    let s = state::slot_at(state, sizes, handle.index);
    if s.handle_is(handle.issue) {
        Ok(s)
    } else {
        Err(Error::BadArgument)
    }
}

// The message under a handle; nothing changes.
#[tactic(auto, using(state::proofs::StackLaws::slots_length, state::proofs::SizeLaws::pool_fits), unfolding(crate::specs::Handles::fetch_of, octets::specs::Pick::pick))]
pub fn fetch_message(
    state: &[u8],
    sizes: Sizes,
    pool: &[u8],
    handle: ReceiveHandle,
) -> Result<Message, Error>
    requires { Kept sizes state.now }
    ensures { result ≡ fetch_of sizes.body handle (stack_of sizes state.now) (length pool.now) }
{
    if pool.len() < sizes.body * sizes.slots {
        return Err(Error::PoolShort);
    }
    let s = good_slot(state, sizes, handle)?;
    Ok(Message {
        key: s.key,
        typ: s.typ,
        ic: s.ic,
        cookie: s.cookie,
        at: sizes.body * handle.index,
        len: s.len,
    })
}

// Finishes the message: its slot becomes empty.
#[tactic(auto, using(state::proofs::StackLaws::stays), unfolding(crate::specs::Handles::handled, octets::specs::Pick::pick))]
pub fn finished_receive(state: &mut [u8], sizes: Sizes, handle: ReceiveHandle) -> Result<(), Error>
    requires { Kept sizes state.old }
    ensures { (result ≡ (finish_of handle (stack_of sizes state.old)).said) × Becomes sizes state.old state.new (finish_of handle (stack_of sizes state.old)).stack }
{
    good_slot(state, sizes, handle)?;
    state::put_slot(state, sizes, handle.index, slot::blank());
    Ok(())
}

// Takes the handle back and keeps the message.
#[tactic(auto, using(state::proofs::StackLaws::stays), unfolding(crate::specs::Handles::handled, octets::specs::Pick::pick))]
pub fn return_handle(state: &mut [u8], sizes: Sizes, handle: ReceiveHandle) -> Result<(), Error>
    requires { Kept sizes state.old }
    ensures { (result ≡ (return_of handle (stack_of sizes state.old)).said) × Becomes sizes state.old state.new (return_of handle (stack_of sizes state.old)).stack }
{
    let s = good_slot(state, sizes, handle)?;
    state::put_slot(state, sizes, handle.index, s.return_handle());
    Ok(())
}

// Gives the slot of the handle another cookie, or none.
#[tactic(auto, using(state::proofs::StackLaws::stays), unfolding(crate::specs::Handles::handled, octets::specs::Pick::pick))]
pub fn set_cookie(
    state: &mut [u8],
    sizes: Sizes,
    handle: ReceiveHandle,
    cookie: Option<AppCookie>,
) -> Result<(), Error>
    requires { Kept sizes state.old }
    ensures { (result ≡ (set_cookie_of handle cookie (stack_of sizes state.old)).said) × Becomes sizes state.old state.new (set_cookie_of handle cookie (stack_of sizes state.old)).stack }
{
    let s = good_slot(state, sizes, handle)?;
    state::put_slot(state, sizes, handle.index, s.set_cookie(cookie));
    Ok(())
}

// Gives out the handle of the slot that is found, where one is.
#[tactic(auto, using(state::proofs::StackLaws::slots_length, state::proofs::StackLaws::stays), unfolding(crate::specs::Handles::take_of, octets::specs::Pick::pick))]
fn take(state: &mut [u8], sizes: Sizes, found: Option<usize>) -> Option<ReceiveHandle>
    requires kept { Kept sizes state.old }
    requires slot { IfSome found (λ i. i < sizes.slots) }
    ensures { (result ≡ (take_of (unwrap_or found sizes.slots) (stack_of sizes state.old)).said) × Becomes sizes state.old state.new (take_of (unwrap_or found sizes.slots) (stack_of sizes state.old)).stack }
{
    let Some(i) = found else {
        return None;
    };
    let issue = slot::next_issue(state::issue_at(state, sizes));
    let s = state::slot_at(state, sizes, i);
    state::put_slot(state, sizes, i, s.take_handle(issue));
    state::put_issue(state, sizes, issue);
    Some(ReceiveHandle { index: i, issue })
}

// The earliest message kept from that source under that tag.
#[tactic(auto, using(state::proofs::StackLaws::stays), unfolding(crate::specs::Handles::by_source_of, octets::specs::Pick::pick))]
pub fn get_deferred(state: &mut [u8], sizes: Sizes, source: Eid, tag: Tag) -> Option<ReceiveHandle>
    requires { Kept sizes state.old }
    ensures { (result ≡ (by_source_of source tag (stack_of sizes state.old)).said) × Becomes sizes state.old state.new (by_source_of source tag (stack_of sizes state.old)).stack }
{
    let t = tag.tag();
    if 7 < t.0 {
        return None;
    }
    let found = slot_walks::earliest_from(state, sizes, source, tag.is_owner(), t);
    take(state, sizes, found)
}

// The earliest message kept whose cookie is one of the list.
pub fn get_deferred_bycookie(
    state: &mut [u8],
    sizes: Sizes,
    cookies: &[u64],
) -> Option<ReceiveHandle>
    requires { Kept sizes state.old }
    ensures { (result ≡ (by_cookie_of cookies.now (stack_of sizes state.old)).said) × Becomes sizes state.old state.new (by_cookie_of cookies.now (stack_of sizes state.old)).stack }
{
    let found = slot_walks::earliest_listed(state, sizes, cookies);
    take(state, sizes, found)
}
