//! Which block is open, and which processes have exited.

ghost use Rattle.std.specs.Prelude.{◌≡◌, [], OnOk, if◌then◌else◌};
ghost use Rattle.job_text.specs.Reading.{has_exited, is_caller, is_exited};
ghost use Rattle.job_text.specs.Tables.{exited_by};

use indexmap::IndexSet;
use std::alloc::Global;
use std::marker::Model;
use tty_base::NoMemory;

/// A process, by its port and its place among those of the port.
#[derive(Clone, Copy, PartialEq, Eq, Hash)]
pub(crate) struct Process {
    pub(crate) port: u64,
    pub(crate) place: usize,
}

/// Which block is open.
#[derive(Clone, Copy)]
pub(crate) enum Block {
    /// That of a process.
    Caller(Process),
    /// That of a process that has exited.
    Exited,
    /// Another, or none.
    Another,
}

/// Which block is open, and who has exited. No process is looked for among all that have.
#[derive(Drop)]
pub(crate) struct OpenBlock {
    block: Block,
    exited: IndexSet<Process>,
}

impl Model for OpenBlock {
    ghost use Rattle.job_text.specs.Tables.{BlockState, HasNotExited};

    ghost Value = { BlockState };

    ghost view = { λ b. record { block = b.block; exited = b.exited.keys } };

    ghost invariant = { λ b. HasNotExited b.block b.exited.keys };
}

impl OpenBlock {
    /// No block is open, and nobody has exited.
    pub(crate) fn new(alloc: Global) -> OpenBlock
        ensures { result ≡ record { block = Block.Another; exited = [] } }
    {
        OpenBlock {
            block: Block::Another,
            exited: IndexSet::new(alloc),
        }
    }

    /// Opens the block of a process.
    pub(crate) fn open(&mut self, process: Process)
        ensures { self.new ≡ record {
          block = if has_exited self.old.exited process then Block.Exited else Block.Caller process;
          exited = self.old.exited;
        } }
    {
        if self.exited.contains(&process) {
            self.block = Block::Exited;
        } else {
            self.block = Block::Caller(process);
        }
    }

    /// Another block begins, or none.
    pub(crate) fn close(&mut self)
        ensures { self.new ≡ record { block = Block.Another; exited = self.old.exited } }
    {
        self.block = Block::Another;
    }

    /// Notes that the process of the open block has exited.
    pub(crate) fn exit(&mut self) -> Result<(), NoMemory>
        ensures { OnOk result (self.new ≡ exited_by self.old.block self.old.exited) }
    {
        match self.block {
            Block::Caller(process) => {
                self.exited.insert(process)?;
                self.block = Block::Exited;
                Ok(())
            }
            _ => {
                self.block = Block::Exited;
                Ok(())
            }
        }
    }

    /// Whether the block of a process is open that has not exited.
    pub(crate) fn is_caller(&self) -> bool
        ensures { result ≡ is_caller self.now.block }
    {
        matches!(self.block, Block::Caller(_))
    }

    /// Whether the block of a process is open that has exited.
    pub(crate) fn is_exited(&self) -> bool
        ensures { result ≡ is_exited self.now.block }
    {
        matches!(self.block, Block::Exited)
    }
}
