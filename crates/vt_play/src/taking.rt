//! Small steps over what may be owned, for every type.

ghost use Rattle.std.specs.Prelude.{◌≡◌, ◌<◌, ◌∷◌, ◌++◌, [], IfErr, IfOk, Ok, OnOk, Some, length, slice_get};
ghost use Rattle.vt_play.specs.Stages.{first_denied};

use tty_base::NoMemory;
use tty_calls::Denied;

/// What stands at a place of a list.
pub(crate) fn at<T>(items: &[T], place: usize) -> &T
    requires { place < length items.now }
    ensures { slice_get items.now place ≡ Some result.now }
{
    &items[place]
}

/// Adds to a list beside what is kept, which is dropped where memory is wanting.
pub(crate) fn push_beside<T: Drop, U: Drop>(
    items: &mut Vec<T>,
    item: T,
    kept: U,
) -> Result<U, NoMemory>
    ensures items { OnOk result (items.new.items ≡ items.old.items ++ item ∷ []) }
    ensures kept { IfOk result (λ it. it ≡ kept) }
{
    items.push(item)?;
    Ok(kept)
}

/// Takes the last of a list.
pub(crate) fn take_last<T: Drop>(items: &mut Vec<T>) -> T
    requires { 0 < length items.old.items }
    ensures { items.old.items ≡ items.new.items ++ result ∷ [] }
{
    let Some(last) = items.pop() else {
        unreachable!()
    };
    last
}

/// What was made; want of memory is a denial.
pub(crate) fn or_denied<T>(made: Result<T, NoMemory>) -> Result<T, Denied>
    ensures made { IfOk result (λ it. made ≡ Ok it) }
    ensures short { IfErr result (λ denied. denied ≡ Denied.NoMemory) }
{
    match made {
        Ok(it) => Ok(it),
        Err(NoMemory) => Err(Denied::NoMemory),
    }
}

/// Whether two things were both done, or which was denied first.
pub(crate) fn both(first: Result<(), Denied>, second: Result<(), Denied>) -> Result<(), Denied>
    ensures { result ≡ first_denied first second }
{
    first?;
    second
}
