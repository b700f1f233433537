//! Parts of a slice. The clauses speak of lists alone, which those of an index written in place do not.
ghost use Rattle.std.specs.Prelude.{◌≡◌, ◌≤◌, take, drop, length};

/// The first items, so many.
#[inline(always)]
pub fn front_of<T>(items: &[T], count: usize) -> &[T]
    requires { count ≤ length items.now }
    ensures { result.now ≡ take count items.now }
{
    &items[..count]
}

/// The items after so many.
#[inline(always)]
pub fn rest_of<T>(items: &[T], count: usize) -> &[T]
    requires { count ≤ length items.now }
    ensures { result.now ≡ drop count items.now }
{
    &items[count..]
}
