// Theorems only: what stays as it is, whatever calls come.
// specs/ says which calls name a handle and which end a message that has none out; proofs/ has the theorems.
// Leans on `promises` for a world and a call in it; no code leans on it.

#![tactic(auto)]

ghost use Rattle.std.specs.Prelude.{◌≡◌};

// How many groups of theorems there are. A crate must have some code, and this is all of it.
pub fn groups() -> u8
    ensures { result ≡ 5 }
{
    5
}
