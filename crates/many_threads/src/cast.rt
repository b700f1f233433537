//! The cast of a phase: at each caller's number its role, where it has one.

ghost use Rattle.std.specs.Prelude.{◌≡◌, ◌<◌, ◌≤◌, None, IfOk, All, length, replicate, sum};
ghost use Rattle.tty_base.specs.Sizes.{MOST_PHASES};
ghost use Rattle.many_threads.specs.Cast.{seated};

use play_base::Role;
use std::alloc::Global;
use tty_base::NoMemory;

/// How many callers there are in all phases. One of several phases counts in each.
pub fn caller_count(counts: &[u8]) -> usize
    requires { length counts.now ≤ MOST_PHASES }
    ensures { result ≡ sum counts.now }
{
    counts.iter().map(|count| usize::from(*count)).sum()
}

/// The cast of these roles, where there are so many callers.
pub fn seat_roles(
    alloc: Global,
    roles: &[Role],
    callers: usize,
) -> Result<Vec<Option<Role>>, NoMemory>
    requires { All (λ r. r.number < callers) roles.now }
    ensures { IfOk result (λ cast. cast.items ≡ seated roles.now (replicate callers None)) }
{
    let mut cast = vec![in alloc; None; callers]?;
    for role in roles {
        cast[usize::from(role.number)] = Some(*role);
    }
    Ok(cast)
}
