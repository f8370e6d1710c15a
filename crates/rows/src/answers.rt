// What a call answers in numbers, and what it leaves in the row that it is lent.
// Definitions: specs/Answers.antt.
// Leans on lib.rt for a fragmenter's row, on `fragment`, `updating`, `slot` and `handles` for what is told.
ghost use Rattle.std.specs.Prelude.{◌≡◌, ℕ, List};
ghost use Rattle.mctp.specs.Answer.{answer_as, answer_no, row_of, row_after, found_words};
ghost use Rattle.fragment.specs.Answers.{output_as, words_of};
ghost use Rattle.slot.specs.Handle.{handle_words};
ghost use Rattle.updating.specs.Update.{next_words};
ghost use Rattle.handles.specs.Handles.{done_as, message_words};
ghost use Rattle.rows.specs.Answers.{length_after, stepped_after};

use crate::advance;
use fragment::{Fragmenter, SendOutput};
use handles::Message;
use mctp::Error;
use slot::ReceiveHandle;
use updating::Next;

// What a call tells in a row of N numbers.
pub trait Row<const N: usize> {
    ghost words: { Self → List ℕ };

    fn words(self) -> [u64; N]
        ensures { result ≡ row_of N (words self) };
}

impl Row<13> for Fragmenter {
    ghost words = { words_of };

    fn words(self) -> [u64; 13] {
        [
            u64::from(self.src.0),
            u64::from(self.dest.0),
            u64::from(self.typ.0),
            u64::from(self.tag.is_owner()),
            u64::from(self.tag.tag().0),
            u64::from(self.ic.0),
            u64::from(self.seq),
            self.mtu as u64,
            u64::from(self.first),
            u64::from(self.done),
            u64::from(mctp::cookie_no(self.cookie)),
            mctp::cookie_value(self.cookie),
            self.payload_used as u64,
        ]
    }
}

impl Row<2> for Next {
    ghost words = { next_words };

    fn words(self) -> [u64; 2] {
        [self.millis, u64::from(self.expired)]
    }
}

// No handle has issue 0.
impl Row<2> for Option<ReceiveHandle> {
    ghost words = { found_words handle_words };

    fn words(self) -> [u64; 2] {
        match self {
            Some(h) => [h.index as u64, h.issue],
            None => [0, 0],
        }
    }
}

impl Row<10> for Message {
    ghost words = { message_words };

    fn words(self) -> [u64; 10] {
        [
            u64::from(self.key.source.0),
            u64::from(self.key.dest.0),
            u64::from(self.key.owner),
            u64::from(self.key.tag.0),
            u64::from(self.typ.0),
            u64::from(self.ic.0),
            u64::from(mctp::cookie_no(self.cookie)),
            mctp::cookie_value(self.cookie),
            self.at as u64,
            self.len as u64,
        ]
    }
}

// The number of an answer; what is told is left in the row, and a refusal leaves the row as it was.
pub fn put<const N: usize, T: Row<N>>(row: &mut [u64; N], said: Result<T, Error>) -> u8
    ensures value { result ≡ answer_no (answer_as T.words said) }
    ensures row { row.new ≡ row_after N (answer_as T.words said) row.old }
{
    match said {
        Ok(it) => {
            *row = it.words();
            0
        }
        Err(err) => err.number(), // the row stays
    }
}

// The number of an answer that tells nothing else.
pub fn done_no(d: Result<(), Error>) -> u8
    ensures { result ≡ answer_no (done_as d) }
{
    match d {
        Ok(()) => 0,
        Err(err) => err.number(),
    }
}

// A packet leaves its length and moves the fragmenter; all sent leaves length 0.
pub fn put_step(
    fragmenter: &mut [u64; 13],
    len: &mut u64,
    next: Fragmenter,
    output: SendOutput,
) -> u8
    ensures value { result ≡ answer_no (output_as output) }
    ensures len_after { len.new ≡ length_after (output_as output) len.old }
    ensures fragmenter_after { fragmenter.new ≡ stepped_after next output fragmenter.old }
{
    match output {
        SendOutput::Packet(n) => {
            advance(fragmenter, next);
            *len = n as u64;
            0
        }
        SendOutput::Complete { tag: _, cookie: _ } => {
            *len = 0;
            0
        }
        SendOutput::Error { err, cookie: _ } => err.number(),
    }
}
