//! What is kept beside what may be wanting. What a port owns is dropped in a function that knows nothing of its type.

ghost use Rattle.std.specs.Prelude.{◌≡◌, Ok, IfOk};

use tty_base::NoMemory;

/// What is kept, beside what was made. Where that could not be made, what is kept is dropped.
pub fn beside<T: Drop, U>(kept: T, made: Result<U, NoMemory>) -> Result<(T, U), NoMemory>
    ensures kept { IfOk result (λ both. both.0 ≡ kept) }
    ensures made { IfOk result (λ both. made ≡ Ok both.1) }
{
    Ok((kept, made?))
}
