//! A count for each number: how often it was counted, once more and once less.

ghost use Rattle.std.specs.Prelude.{◌≡◌, ℕ, ◌+◌, ◌-◌, ◌<◌, IfOk, OnOk};
ghost use Rattle.job_control.specs.Keeping.{counted, one_at};

use std::alloc::Global;
use std::collections::HashMap;
use tty_base::NoMemory;

/// How often each number was counted.
#[derive(Drop)]
pub(crate) struct Census {
    counts: HashMap<u32, u16>,
}

impl Census {
    /// Nothing was counted.
    pub(crate) fn new(alloc: Global) -> Result<Census, NoMemory>
        ensures { IfOk result (λ census. (k : ℕ) → counted census k ≡ 0) }
    {
        Ok(Census {
            counts: HashMap::new(alloc),
        })
    }

    /// Counts a number once more.
    pub(crate) fn add(&mut self, key: u32) -> Result<(), NoMemory>
        requires { counted self.old key < 65535 }
        ensures { OnOk result ((k : ℕ) → counted self.new k ≡ counted self.old k + one_at key k) }
    {
        *self.counts.entry(key)?.or_insert(0) += 1;
        Ok(())
    }

    /// Counts a number once less.
    pub(crate) fn take(&mut self, key: u32)
        ensures { (k : ℕ) → counted self.new k ≡ counted self.old k - one_at key k }
    {
        if let Some(count) = self.counts.get_mut(&key) {
            *count = count.saturating_sub(1);
        }
    }

    /// How often a number was counted.
    pub(crate) fn count(&self, key: u32) -> u16
        ensures { result ≡ counted self.now key }
    {
        self.counts.get(&key).copied().unwrap_or(0)
    }
}
