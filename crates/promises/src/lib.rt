// Theorems only: what the customer buys, stated over the definitions that every call's contract cites.
// specs/ says what a call, a delivery and a history are; proofs/ has the theorems, which docs/PROMISES.md lists by name.
// Leans on `estack`, `receiving`, `fragment` and what they cite; no code leans on it.

#![tactic(auto)]

ghost use Rattle.std.specs.Prelude.{◌≡◌};

// How many demands the theorems answer. A crate must have some code, and this is all of it.
pub fn demands() -> u8
    ensures { result ≡ 3 }
{
    3
}
