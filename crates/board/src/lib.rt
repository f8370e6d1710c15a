// The calls that `board_c` exports, for C and Rust: every public call of the stack, the fragment step and `is_kept`, over numbers, byte slices and rows of 64-bit words.
// A call that can refuse answers 0 or the refusal's number. What else it tells goes into a row that it is lent; a refusal leaves the row as it was.
// Leans on `estack`, `fragment` and `kept` for all that is done, on `rows` for the rows and what is told. Definitions: specs/Board.antt.

#![tactic(auto)]

mod calls;

pub use calls::{
    hyphaloom_cancel_flow, hyphaloom_eid, hyphaloom_fetch_message, hyphaloom_finished_receive,
    hyphaloom_fragment, hyphaloom_free_tags, hyphaloom_get_deferred,
    hyphaloom_get_deferred_bycookie, hyphaloom_is_kept, hyphaloom_is_local_dest, hyphaloom_new,
    hyphaloom_receive, hyphaloom_return_handle, hyphaloom_set_cookie, hyphaloom_set_eid,
    hyphaloom_start_send, hyphaloom_update,
};
