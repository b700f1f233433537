//! Lists whose parts are named by place and count.

ghost use Rattle.std.specs.Prelude.{◌≡◌, ◌≤◌, ◌<◌, ◌-◌, Some, [], ◌∷◌, ◌++◌, IfOk, OnOk, OnErr, length, slice_get};
ghost use Rattle.tty_base.specs.Contents.{Contents};
ghost use Rattle.tty_calls.specs.Parts.{IsListPart, part_of};

use std::alloc::Global;
use std::marker::Model;
use tty_base::NoMemory;

/// A part of a list: where it begins, and how many elements it has.
#[derive(Clone, Copy)]
pub(crate) struct ListPart {
    pub(crate) first: u32,
    pub(crate) count: u32,
}

/// The part of a list.
#[inline(always)]
pub(crate) fn part_in<T>(list: &[T], part: ListPart) -> &[T]
    requires { IsListPart (length list.now) part }
    ensures { result.now ≡ part_of list.now part }
{
    let first = part.first as usize;
    &list[first..first + part.count as usize]
}

/// Adds elements to a list, and answers which part of it they are. A part ends below 2^32, and more is want of memory.
pub(crate) fn keep<T: Copy>(list: &mut Vec<T>, more: &[T]) -> Result<ListPart, NoMemory>
    ensures list { OnOk result (list.new.items ≡ list.old.items ++ more.now) }
    ensures part { IfOk result (λ part. part ≡ record { first = length list.old.items; count = length more.now }) }
    ensures err { OnErr result (list.new.items ≡ list.old.items) }
{
    let (Ok(first), Ok(count)) = (u32::try_from(list.len()), u32::try_from(more.len())) else {
        return Err(NoMemory);
    };
    list.extend_from_slice(more)?;
    Ok(ListPart { first, count })
}

/// A list with reserved room, of fewer than 2^32 elements.
#[derive(Drop)]
pub(crate) struct KeptList<T> {
    items: Vec<T>,
    spare: u32,
}

impl<T> Model for KeptList<T> {
    ghost use Rattle.std.specs.Prelude.{◌+◌, ◌≤◌, ◌<◌, ◌^◌, vec_len, vec_capacity};
    ghost use Rattle.tty_base.specs.Contents.{Contents};

    ghost Value = { Contents T };

    ghost view = { λ s. record { items = s.items.items; spare = s.spare } };

    ghost invariant = { λ s.
        (vec_len s.items + s.spare ≤ vec_capacity s.items) × (vec_len s.items + s.spare < 2 ^ 32) };
}

impl<T> KeptList<T> {
    /// An empty list, without room. It takes no memory.
    pub(crate) fn new(alloc: Global) -> KeptList<T>
        ensures { result ≡ record { items = []; spare = 0 } }
    {
        KeptList {
            items: Vec::new(alloc),
            spare: 0,
        }
    }

    /// Makes room for `more` further elements.
    #[inline(always)]
    pub(crate) fn reserve(&mut self, more: usize) -> Result<(), NoMemory>
        ensures items { self.new.items ≡ self.old.items }
        ensures ok { OnOk result (more ≤ self.new.spare) }
    {
        if more > self.spare as usize {
            self.grow(more)?;
        }
        Ok(())
    }

    /// Makes room for `more` further elements where it is not there.
    #[inline(never)]
    fn grow(&mut self, more: usize) -> Result<(), NoMemory>
        ensures items { self.new.items ≡ self.old.items }
        ensures ok { OnOk result (more ≤ self.new.spare) }
    {
        self.items.reserve(more)?;
        let count = self.items.len();
        let most = self.items.capacity().min(u32::MAX as usize);
        let spare = most.saturating_sub(count);
        if more > spare {
            return Err(NoMemory);
        }
        self.spare = spare as u32;
        Ok(())
    }

    /// Adds an element in room that was reserved, and answers its place.
    #[inline(always)]
    pub(crate) fn add(&mut self, item: T) -> u32
        requires { 0 < self.old.spare }
        ensures list { self.new ≡ record { items = self.old.items ++ item ∷ []; spare = self.old.spare - 1 } }
        ensures place { result ≡ length self.old.items }
    {
        let place = self.items.len() as u32;
        self.spare -= 1;
        self.items.push_reserved(item);
        place
    }

    /// How many elements there are.
    #[inline(always)]
    pub(crate) fn len(&self) -> usize
        ensures { result ≡ length self.now.items }
    {
        self.items.len()
    }

    /// The element at a place, where one stands.
    #[inline(always)]
    pub(crate) fn at(&self, place: u32) -> &T
        requires { place < length self.now.items }
        ensures { slice_get self.now.items place ≡ Some result.now }
    {
        &self.items.as_slice()[place as usize]
    }

    /// The elements, in order.
    #[inline(always)]
    pub(crate) fn as_slice(&self) -> &[T]
        ensures { result.now ≡ self.now.items }
    {
        self.items.as_slice()
    }
}

impl<T: Copy> KeptList<T> {
    /// Adds elements in room that was reserved, and answers which part of the list they are.
    #[inline(always)]
    pub(crate) fn keep(&mut self, more: &[T]) -> ListPart
        requires { length more.now ≤ self.old.spare }
        ensures list { self.new
            ≡ record { items = self.old.items ++ more.now; spare = self.old.spare - length more.now } }
        ensures part { result ≡ record { first = length self.old.items; count = length more.now } }
    {
        let first = self.items.len() as u32;
        let count = more.len() as u32;
        self.spare -= count;
        match self.items.extend_from_slice(more) {
            Ok(()) => ListPart { first, count },
            Err(_) => unreachable!(),
        }
    }
}
