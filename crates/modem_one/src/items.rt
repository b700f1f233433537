//! The items of a port's modem block in a phase.

ghost use Rattle.std.specs.Prelude.{◌≡◌, drop, map, option_map, slice_get};
ghost use Rattle.modem_text.specs.Sessions.{step_of};

use modem_text::PinItem;
use std::marker::Model;

/// What is left of them.
#[derive(Drop)]
pub struct Items<'a> {
    items: &'a [PinItem],
    done: usize,
}

impl<'a> Model for Items<'a> {
    ghost use Rattle.std.specs.Prelude.{List, drop, map};
    ghost use Rattle.modem_text.specs.Sessions.{PinStep, step_of};

    ghost Value = { List PinStep };

    ghost view = { λ i. map step_of (drop i.done i.items.now) };
}

impl<'a> Items<'a> {
    /// All of these, which are of one port.
    pub fn of(items: &'a [PinItem]) -> Items<'a>
        ensures { result ≡ map step_of items.now }
    {
        Items { items, done: 0 }
    }

    /// The next item.
    pub(crate) fn next(&self) -> Option<PinItem>
        ensures { option_map step_of result ≡ slice_get self.now 0 }
    {
        self.items.get(self.done).copied()
    }

    /// The next item was done.
    pub(crate) fn pass(&mut self)
        ensures { self.new ≡ drop 1 self.old }
    {
        if self.done < self.items.len() {
            self.done += 1;
        }
    }
}
