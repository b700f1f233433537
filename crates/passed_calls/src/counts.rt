//! How many calls stand in a script.

ghost use Rattle.std.specs.Prelude.{◌≡◌, ◌≤◌, ◌==◌, length, not, position};
ghost use Rattle.passed_calls.specs.Scripts.{count_in};

use crate::placed::PlacedCall;

/// How many of these calls stand in a script.
pub fn count_in<C: Copy>(script: usize, placed: &[PlacedCall<C>]) -> usize
    ensures count { result ≡ count_in script placed.now }
    ensures within { result ≤ length placed.now }
{
    match first_beside(script, placed) {
        None => placed.len(),
        Some(count) => count,
    }
}

/// The first of these calls that does not stand in a script.
fn first_beside<C: Copy>(script: usize, placed: &[PlacedCall<C>]) -> Option<usize>
    ensures { result ≡ position (λ o. not (o.script == script)) placed.now }
{
    placed.iter().position(|call| call.script != script)
}
