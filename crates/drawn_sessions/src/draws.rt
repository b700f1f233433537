//! Draws of a linear congruence.

ghost use Rattle.std.specs.Prelude.{◌≡◌, ◌+◌, ◌<◌, ◌≤◌};

/// What the next draws are made from.
#[derive(Drop)]
pub(crate) struct Draws {
    state: u32,
}

impl Draws {
    pub(crate) fn new(number: u32) -> Draws {
        Draws { state: number }
    }

    /// The next draw, a number below this one, or 0.
    pub(crate) fn below(&mut self, most: u32) -> u32
        ensures below { 0 < most → result < most }
        ensures none { most ≡ 0 → result ≡ 0 }
    {
        let next = self.state.wrapping_mul(1_664_525);
        self.state = next.wrapping_add(1_013_904_223);
        (self.state >> 12).checked_rem(most).unwrap_or(0)
    }

    /// A draw of so many numbers from the least on.
    pub(crate) fn number_from(&mut self, least: u32, count: u32) -> u32
        ensures least { least ≤ result }
        ensures below { 0 < count → result < least + count }
    {
        self.below(count).saturating_add(least)
    }

    /// True in one of so many draws.
    pub(crate) fn once_in(&mut self, times: u32) -> bool {
        self.below(times) == 0
    }

    pub(crate) fn one_of<'a>(&mut self, words: &[&'a str]) -> &'a str {
        let count = u32::try_from(words.len()).unwrap_or(0);
        let place = usize::try_from(self.below(count)).unwrap_or(0);
        words.get(place).copied().unwrap_or("")
    }
}
