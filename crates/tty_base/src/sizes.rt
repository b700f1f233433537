//! The sizes and limits of the terminal layer, each by what it bounds. Two that bound different things
//! have two names, also where they are one number. Contracts take them from `specs/Sizes.antt`.

/// The most characters of one piece of a flush, and bytes of one piece of a write.
pub const PIECE: usize = 64;

/// The most unread bytes of a port, with those of its edited line.
pub const MOST_UNREAD: usize = 4096;

/// The most ends of input lines among the unread bytes.
pub const MOST_ENDS: usize = 4096;

/// The most bytes of the edited line.
pub const MOST_LINE: usize = 4095;

/// The most unread bytes beside which a character is accepted in any case: it may take two bytes.
pub const MOST_TO_ACCEPT: usize = 4094;

/// The most of them under `parmrk`, where a character may take three bytes.
pub const MOST_TO_ACCEPT_MARKED: usize = 4092;

/// The most bytes that one read gives.
pub const MOST_READ: usize = 4096;

/// The most bytes of output that are held back.
pub const MOST_HELD: usize = 4096;

/// The most bytes that are posted for one piece of a write.
pub const MOST_POSTED: usize = 512;

/// The most columns by which one byte of output moves the column.
pub const COLUMNS_OF_BYTE: u64 = 64;

/// The most columns by which one piece of a write moves the column.
pub const COLUMNS_OF_PIECE: u64 = 4096;

/// The most columns by which one received character moves the column.
pub const COLUMNS_OF_CHARACTER: u64 = 1 << 22;

/// The most columns by which one entry of a journal moves the column.
pub const COLUMNS_OF_ENTRY: u64 = 1 << 28;

/// The most bytes that one call asks for or brings.
pub const MOST_ASKED: usize = 65_536;

/// The most mode words of one call.
pub const MOST_MODE_WORDS: usize = 64;

/// How many handles a port has.
pub const MOST_HANDLES: u8 = 32;

/// The last number of a handle.
pub const LAST_HANDLE: u8 = 31;

/// The places of a flip buffer of which a session says nothing.
pub const DEFAULT_FLIP: u32 = 4096;

/// The fewest places of a flip buffer.
pub const LEAST_FLIP: usize = 64;

/// The most places of a flip buffer.
pub const MOST_FLIP: usize = 65_536;

/// The most characters that are ever put into a flip buffer.
pub const MOST_SENT: u64 = 1 << 63;

/// The most seats of a shared value.
pub const MOST_SEATS: usize = 4096;

/// The most of them for the callers of a port.
pub const MOST_CALLER_SEATS: usize = 4092;

/// The most callers of a port that have numbers.
pub const MOST_NUMBERED: usize = 65_536;

/// The most bytes of a name.
pub const MOST_NAME: usize = 16;

/// The most ports of a session.
pub const MOST_PORTS: usize = 8;

/// The most phases of a session.
pub const MOST_PHASES: usize = 64;

/// The most callers of a port in one phase.
pub const MOST_CALLERS: usize = 16;

/// The most steps of a session.
pub const MOST_STEPS: usize = 65_536;

/// The most ticks of a port in a session.
pub const MOST_TICKS: usize = 65_536;

/// The most characters that arrive on a port in a session.
pub const MOST_ARRIVALS: usize = 262_144;

/// The most character times that pass in one step.
pub const MOST_IDLE: usize = 1000;

/// The most consoles of a session.
pub const MOST_CONSOLES: u8 = 8;

/// The most operators of one phase.
pub const MOST_OPERATORS: usize = 16;

/// The most calls of operators in a session.
pub const MOST_OPERATOR_CALLS: usize = 65_536;

/// The most keys of a session.
pub const MOST_KEYS: usize = 262_144;

/// The most processes of a port in a session.
pub const MOST_PROCESSES: usize = 1024;

/// The last number of a group of processes, and of a session of them.
pub const LAST_GROUP: u16 = 65_535;

/// The numbers of groups, and of sessions of processes, are below this.
pub const GROUP_END: u32 = 65_536;

/// The most bytes of a text that is read.
pub const MOST_TEXT: usize = 4_194_304;

/// The most entries of a journal.
pub const MOST_ENTRIES: u32 = 4_194_304;

/// The numbers of generations, phases, steps, parts and ticks stay below this.
pub const NUMBER_END: u32 = 1 << 31;

/// Counts of characters, and columns, stay below this as long as anything runs.
pub const COUNT_END: u64 = 1 << 62;
