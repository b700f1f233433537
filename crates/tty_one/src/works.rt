//! How work ends, and how that is told.

ghost use Rattle.std.specs.Prelude.{◌≡◌, ◌⊎◌, ◌≢◌, ◌++◌, [], None, Some, IfSome};
ghost use Rattle.tty_base.specs.Outside.{Rose, GivesFront};
ghost use Rattle.tty_one.specs.Endings.{status_of, text_of};
ghost use Rattle.tty_one.specs.Reported.{returned};
ghost use Rattle.tty_one.specs.Works.{brought};

use job_text::JobLog;
use modem_text::ModemLog;
use std::alloc::Global;
use tty_base::{Buffer, Bytes, Sink, write_all};
use tty_calls::{PortRun, Session};
use vt_consoles::VtEntry;

/// The runs of a session's ports, or of its consoles.
pub type Runs = Buffer<PortRun>;

/// The entries of a board.
pub type VtEntries = Buffer<VtEntry>;

/// What happened beside ports with modem lines.
pub type ModemLogs = Buffer<ModemLog>;

/// What happened beside the ports of processes.
pub type JobLogs = Buffer<JobLog>;

/// What a call of the program came to: its exit status, the runs of the ports or consoles, the entries of the consoles'
/// board, what happened beside ports with modem lines and beside those of processes, and the session that these were
/// played.
#[derive(Drop)]
pub struct Ran {
    pub status: u8,
    pub runs: Runs,
    pub vt: VtEntries,
    pub modem: ModemLogs,
    pub jobs: JobLogs,
    pub derived: Option<Session>,
}

impl Ran {
    /// That no memory was left.
    pub fn starved(alloc: Global) -> Ran
        ensures { result
            ≡ record {
              status = 5;
              runs = record { items = []; spare = 0 };
              vt = record { items = []; spare = 0 };
              modem = record { items = []; spare = 0 };
              jobs = record { items = []; spare = 0 };
              derived = None;
            } }
    {
        Ran {
            status: 5,
            runs: Runs::new(alloc),
            vt: VtEntries::new(alloc),
            modem: ModemLogs::new(alloc),
            jobs: JobLogs::new(alloc),
            derived: None,
        }
    }
}

/// How the work ended, before it was told.
#[derive(Drop)]
pub enum Ending {
    /// What was asked for was done; this is its text.
    Done(Bytes),
    /// The text that was read is not in its grammar; this line says why.
    BadSession(Bytes),
    BadWords,
    ReadFault,
    TooLong,
    /// The journals that were read are not all legal; this line says which.
    NotLegal(Bytes),
}

/// What was done: how it ended, and what a call of the program returns of it.
#[derive(Drop)]
pub struct Work {
    pub ending: Ending,
    pub runs: Runs,
    pub vt: VtEntries,
    pub modem: ModemLogs,
    pub jobs: JobLogs,
    pub derived: Option<Session>,
}

impl Work {
    /// Work that ended without a run.
    pub fn ended(alloc: Global, ending: Ending) -> Work
        ensures { result
            ≡ record {
              ending = ending;
              runs = record { items = []; spare = 0 };
              vt = record { items = []; spare = 0 };
              modem = record { items = []; spare = 0 };
              jobs = record { items = []; spare = 0 };
              derived = None;
            } }
    {
        Work {
            ending,
            runs: Runs::new(alloc),
            vt: VtEntries::new(alloc),
            modem: ModemLogs::new(alloc),
            jobs: JobLogs::new(alloc),
            derived: None,
        }
    }

    /// Gives the text of the ending to the sink.
    pub fn tell<K: Sink>(self, sink: &mut K) -> Ran
        ensures back { returned result ≡ brought self }
        ensures status { (result.status ≡ status_of self.ending) ⊎ (result.status ≡ 4) }
        ensures fault { result.status ≡ 4 → Rose (K.faults sink.old) (K.faults sink.new) }
        ensures whole { result.status ≢ 4
            → IfSome (K.given sink.old) (λ before. K.given sink.new ≡ Some (before ++ text_of self.ending)) }
        ensures front { IfSome (K.given sink.old)
            (λ before. GivesFront before (text_of self.ending) (K.given sink.new)) }
    {
        let Work {
            ending,
            runs,
            vt,
            modem,
            jobs,
            derived,
        } = self;
        match write_all(sink, ending.text()) {
            Ok(()) => Ran {
                status: ending.status(),
                runs,
                vt,
                modem,
                jobs,
                derived,
            },
            Err(_) => Ran {
                status: 4,
                runs,
                vt,
                modem,
                jobs,
                derived,
            },
        }
    }
}

impl Ending {
    fn status(&self) -> u8
        ensures { result ≡ status_of self.now }
    {
        match self {
            Ending::Done(_) => 0,
            Ending::BadSession(_) => 1,
            Ending::BadWords => 2,
            Ending::ReadFault => 3,
            Ending::TooLong => 6,
            Ending::NotLegal(_) => 7,
        }
    }

    /// What is given to the sink.
    fn text(&self) -> &[u8]
        ensures { result.now ≡ text_of self.now }
    {
        match self {
            Ending::Done(text) => text.as_slice(),
            Ending::BadSession(line) => line.as_slice(),
            Ending::BadWords => b"bad words\n",
            Ending::ReadFault => b"read fault\n",
            Ending::TooLong => b"session too long\n",
            Ending::NotLegal(line) => line.as_slice(),
        }
    }
}
