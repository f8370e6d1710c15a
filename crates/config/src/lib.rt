// The sizes and times of a stack, as the Rust's `config`: each number stands here once, and docs/RULES.md 5 lists them.
// Definitions: specs/Config.antt.
// Leans on nothing.

#![tactic(auto)]

// Slots: messages that are collected or kept at a time.
pub const NUM_RECEIVE: usize = 4;

// The most bytes that a message's body holds.
pub const MAX_PAYLOAD: usize = 1032;

// Places for flows.
pub const FLOWS: usize = 64;

// The MTU of a send, header included: a header and the type byte at least.
pub const MIN_MTU: usize = 5;

pub const MAX_MTU: usize = 255;

// Milliseconds after which a slot expires.
pub const REASSEMBLY_EXPIRY_TIMEOUT: u32 = 6000;

// Milliseconds after which a flow expires.
pub const FLOW_EXPIRY_TIMEOUT: u32 = 6000;

// Milliseconds until the next check of time, at most.
pub const TIMEOUT_INTERVAL: u32 = 100;
