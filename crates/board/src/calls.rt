// The calls that `board_c` exports. They have one premise: the state is one that `hyphaloom_new` made and the other calls kept.
ghost use Rattle.std.specs.Prelude.{◌≡◌, true, length};
ghost use Rattle.octets.specs.Bytes.{over};
ghost use Rattle.mctp.specs.Answer.{answer_no, row_after};
ghost use Rattle.fragment.specs.Step.{step_of};
ghost use Rattle.fragment.specs.Answers.{started_as, output_as};
ghost use Rattle.state.specs.Stack.{Kept, Becomes, stack_of};
ghost use Rattle.receiving.specs.Conclude.{received_as};
ghost use Rattle.receiving.specs.Receive.{receive_of};
ghost use Rattle.estack.specs.Basics.{new_says, NewMakes, set_eid_of, local_of, cancel_of, free_tags_of};
ghost use Rattle.handles.specs.Handles.{done_as, fetched_as, deferred_as, finish_of, return_of, set_cookie_of, fetch_of, by_source_of, by_cookie_of};
ghost use Rattle.updating.specs.Update.{updated_as, update_of};
ghost use Rattle.rows.specs.Words.{is_yes, tag_from, cookie_from, fragmenter_of};
ghost use Rattle.rows.specs.Answers.{length_after, stepped_after};
ghost use Rattle.board.specs.Board.{board, start_of};

use estack::ReceiveHandle;
use mctp::{Eid, Error, TagValue};
use rows::{
    Row, cookie_from, done_no, fragmenter_of, is_good_send, put, put_step, send_of, tag_from,
};
use state::Sizes;

// Makes a new stack in the front of a buffer of at least 2,248 bytes; what lies past it stays.
pub fn hyphaloom_new(state: &mut [u8], own: u8, mtu: usize, clock: u64) -> u8
    ensures said { result ≡ answer_no (done_as (new_says board (length state.old) mtu)) }
    ensures stack { NewMakes (new_says board (length state.old) mtu) board (record { 0 = own }) mtu clock state.old state.new }
{
    done_no(estack::new(state, Sizes::BOARD, Eid(own), mtu, clock))
}

// Whether the bytes are a state, such as `hyphaloom_new` makes and the other calls keep. It has no premise: any bytes may be looked at.
pub fn hyphaloom_is_kept(state: &[u8]) -> bool
    ensures sound { result ≡ true → Kept board state.now }
    ensures complete { Kept board state.now → result ≡ true }
{
    kept::is_kept(state, Sizes::BOARD)
}

pub fn hyphaloom_set_eid(state: &mut [u8], eid: u8) -> u8
    requires { Kept board state.old }
    ensures said { result ≡ answer_no (done_as (set_eid_of eid (stack_of board state.old)).said) }
    ensures stack { Becomes board state.old state.new (set_eid_of eid (stack_of board state.old)).stack }
{
    done_no(estack::set_eid(state, Sizes::BOARD, eid))
}

pub fn hyphaloom_eid(state: &[u8]) -> u8
    requires { Kept board state.now }
    ensures { result ≡ (stack_of board state.now).head.own_eid.0 }
{
    estack::eid(state, Sizes::BOARD).0
}

pub fn hyphaloom_is_local_dest(state: &[u8], packet: &[u8]) -> bool
    requires { Kept board state.now }
    ensures { result ≡ local_of packet.now (stack_of board state.now) }
{
    estack::is_local_dest(state, Sizes::BOARD, packet)
}

// Starts a send, and leaves the fragmenter that steps through its packets.
#[tactic(auto, using(state::proofs::StackLaws::stays), unfolding(crate::specs::Board::start_of, octets::specs::Pick::pick))]
pub fn hyphaloom_start_send(state: &mut [u8], send: &[u64; 10], fragmenter: &mut [u64; 13]) -> u8
    requires { Kept board state.old }
    ensures said { result ≡ answer_no (started_as (start_of send.now (stack_of board state.old)).said) }
    ensures stack { Becomes board state.old state.new (start_of send.now (stack_of board state.old)).stack }
    ensures fragmenter { fragmenter.new ≡ row_after 13 (started_as (start_of send.now (stack_of board state.old)).said) fragmenter.old }
{
    if is_good_send(send) {
        let started = estack::start_send(state, Sizes::BOARD, send_of(send));
        put(fragmenter, started)
    } else {
        Error::InvalidInput.number()
    }
}

// One step: it leaves a packet of `len` bytes at the front of the buffer; `len` 0 says that all is sent.
pub fn hyphaloom_fragment(
    fragmenter: &mut [u64; 13],
    payload: &[u8],
    out: &mut [u8],
    len: &mut u64,
) -> u8
    ensures said { result ≡ answer_no (output_as (step_of (fragmenter_of fragmenter.old) payload.now (length out.old)).result.output) }
    ensures length { len.new ≡ length_after (output_as (step_of (fragmenter_of fragmenter.old) payload.now (length out.old)).result.output) len.old }
    ensures fragmenter { fragmenter.new ≡ stepped_after (step_of (fragmenter_of fragmenter.old) payload.now (length out.old)).result.next (step_of (fragmenter_of fragmenter.old) payload.now (length out.old)).result.output fragmenter.old }
    ensures packet { out.new ≡ over 0 (step_of (fragmenter_of fragmenter.old) payload.now (length out.old)).bytes out.old }
{
    let f = fragmenter_of(fragmenter);
    let plan = f.plan(payload.len(), out.len());
    let said = put_step(fragmenter, len, plan.next(f), plan.output());
    f.write(payload, out);
    said
}

// Takes the clock, and tells how many milliseconds may pass until the next update, and whether something expired.
pub fn hyphaloom_update(state: &mut [u8], clock: u64, next: &mut [u64; 2]) -> u8
    requires { Kept board state.old }
    ensures said { result ≡ answer_no (updated_as (update_of clock (stack_of board state.old)).said) }
    ensures stack { Becomes board state.old state.new (update_of clock (stack_of board state.old)).stack }
    ensures next { next.new ≡ row_after 2 (updated_as (update_of clock (stack_of board state.old)).said) next.old }
{
    put(next, estack::update(state, Sizes::BOARD, clock))
}

// Receives a packet, and leaves the handle of the message that it ends, or issue 0 where more is to come.
pub fn hyphaloom_receive(
    state: &mut [u8],
    pool: &mut [u8],
    packet: &[u8],
    handle: &mut [u64; 2],
) -> u8
    requires { Kept board state.old }
    ensures said { result ≡ answer_no (received_as (receive_of 1032 (stack_of board state.old) (length pool.old) packet.now).said) }
    ensures stack { Becomes board state.old state.new (receive_of 1032 (stack_of board state.old) (length pool.old) packet.now).stack }
    ensures pool { pool.new ≡ over (receive_of 1032 (stack_of board state.old) (length pool.old) packet.now).at (receive_of 1032 (stack_of board state.old) (length pool.old) packet.now).bytes pool.old }
    ensures handle { handle.new ≡ row_after 2 (received_as (receive_of 1032 (stack_of board state.old) (length pool.old) packet.now).said) handle.old }
{
    let received = estack::receive(state, Sizes::BOARD, pool, packet);
    put(handle, received)
}

// The earliest message kept from that source under that tag: its handle, or issue 0 where there is none.
pub fn hyphaloom_get_deferred(
    state: &mut [u8],
    source: u8,
    owner: u8,
    tag: u8,
    handle: &mut [u64; 2],
)
    requires { Kept board state.old }
    ensures stack { Becomes board state.old state.new (by_source_of (record { 0 = source }) (tag_from (is_yes owner) tag) (stack_of board state.old)).stack }
    ensures handle { handle.new ≡ row_after 2 (deferred_as (by_source_of (record { 0 = source }) (tag_from (is_yes owner) tag) (stack_of board state.old)).said) handle.old }
{
    let tag = tag_from(0 < owner, tag);
    *handle = estack::get_deferred(state, Sizes::BOARD, Eid(source), tag).words();
}

// The earliest message kept whose cookie is one of the list.
pub fn hyphaloom_get_deferred_bycookie(state: &mut [u8], cookies: &[u64], handle: &mut [u64; 2])
    requires { Kept board state.old }
    ensures stack { Becomes board state.old state.new (by_cookie_of cookies.now (stack_of board state.old)).stack }
    ensures handle { handle.new ≡ row_after 2 (deferred_as (by_cookie_of cookies.now (stack_of board state.old)).said) handle.old }
{
    *handle = estack::get_deferred_bycookie(state, Sizes::BOARD, cookies).words();
}

// The message under a handle: its body is `len` bytes of the pool from byte `at`.
pub fn hyphaloom_fetch_message(
    state: &[u8],
    pool: &[u8],
    index: usize,
    issue: u64,
    message: &mut [u64; 10],
) -> u8
    requires { Kept board state.now }
    ensures said { result ≡ answer_no (fetched_as (fetch_of 1032 (record { index = index; issue = issue }) (stack_of board state.now) (length pool.now))) }
    ensures message { message.new ≡ row_after 10 (fetched_as (fetch_of 1032 (record { index = index; issue = issue }) (stack_of board state.now) (length pool.now))) message.old }
{
    let handle = ReceiveHandle { index, issue };
    let fetched = estack::fetch_message(state, Sizes::BOARD, pool, handle);
    put(message, fetched)
}

pub fn hyphaloom_finished_receive(state: &mut [u8], index: usize, issue: u64) -> u8
    requires { Kept board state.old }
    ensures said { result ≡ answer_no (done_as (finish_of (record { index = index; issue = issue }) (stack_of board state.old)).said) }
    ensures stack { Becomes board state.old state.new (finish_of (record { index = index; issue = issue }) (stack_of board state.old)).stack }
{
    let handle = ReceiveHandle { index, issue };
    done_no(estack::finished_receive(state, Sizes::BOARD, handle))
}

pub fn hyphaloom_return_handle(state: &mut [u8], index: usize, issue: u64) -> u8
    requires { Kept board state.old }
    ensures said { result ≡ answer_no (done_as (return_of (record { index = index; issue = issue }) (stack_of board state.old)).said) }
    ensures stack { Becomes board state.old state.new (return_of (record { index = index; issue = issue }) (stack_of board state.old)).stack }
{
    let handle = ReceiveHandle { index, issue };
    done_no(estack::return_handle(state, Sizes::BOARD, handle))
}

pub fn hyphaloom_set_cookie(
    state: &mut [u8],
    index: usize,
    issue: u64,
    has_cookie: u8,
    cookie: u64,
) -> u8
    requires { Kept board state.old }
    ensures said { result ≡ answer_no (done_as (set_cookie_of (record { index = index; issue = issue }) (cookie_from (is_yes has_cookie) cookie) (stack_of board state.old)).said) }
    ensures stack { Becomes board state.old state.new (set_cookie_of (record { index = index; issue = issue }) (cookie_from (is_yes has_cookie) cookie) (stack_of board state.old)).stack }
{
    let handle = ReceiveHandle { index, issue };
    let cookie = cookie_from(0 < has_cookie, cookie);
    done_no(estack::set_cookie(state, Sizes::BOARD, handle, cookie))
}

pub fn hyphaloom_cancel_flow(state: &mut [u8], source: u8, tag: u8) -> u8
    requires { Kept board state.old }
    ensures said { result ≡ answer_no (done_as (cancel_of (record { 0 = source }) (record { 0 = tag }) (stack_of board state.old)).said) }
    ensures stack { Becomes board state.old state.new (cancel_of (record { 0 = source }) (record { 0 = tag }) (stack_of board state.old)).stack }
{
    done_no(estack::cancel_flow(state, Sizes::BOARD, Eid(source), TagValue(tag)))
}

// How many tags are free for a peer.
pub fn hyphaloom_free_tags(state: &[u8], peer: u8) -> u8
    requires { Kept board state.now }
    ensures { result ≡ free_tags_of (record { 0 = peer }) (stack_of board state.now) }
{
    estack::free_tags(state, Sizes::BOARD, Eid(peer))
}
