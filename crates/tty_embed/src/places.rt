//! Lists of bytes and signals that are filled, told and emptied again.

ghost use Rattle.std.specs.Prelude.{◌≡◌, ◌≤◌, [], ◌++◌, length, drop, OnOk};

use std::alloc::Global;
use std::mem::replace;
use tty_base::{Buffer, NoMemory};

/// Empties a list, and makes room in it for `count` items. The memory that it has is used again.
pub fn make_room<T: Drop>(list: &mut Buffer<T>, alloc: Global, count: usize) -> Result<(), NoMemory>
    ensures empty { list.new.items ≡ [] }
    ensures room { OnOk result (count ≤ list.new.spare) }
{
    let mut items = replace(list, Buffer::new(alloc)).into_vec();
    items.clear();
    *list = Buffer::from_vec(items);
    list.reserve(count)
}

/// Puts bytes at the front of a place that has room for them.
pub fn put_front(place: &mut [u8], bytes: &[u8])
    requires { length bytes.now ≤ length place.old }
    ensures { place.new ≡ bytes.now ++ drop (length bytes.now) place.old }
{
    place[..bytes.len()].copy_from_slice(bytes);
}
