//! The places of the flags and of the control characters, counted from 0, in the order in which modes are printed.

/// How many flags there are.
pub const FLAG_COUNT: u32 = 29;

/// Ignore a break.
pub const IGNBRK: u32 = 0;
/// A break raises INT.
pub const BRKINT: u32 = 1;
/// Ignore characters with a parity or framing error.
pub const IGNPAR: u32 = 2;
/// Mark characters with a parity or framing error.
pub const PARMRK: u32 = 3;
/// Check parity and framing of input.
pub const INPCK: u32 = 4;
/// Clear bit 7 of input.
pub const ISTRIP: u32 = 5;
/// Make CR of a received NL.
pub const INLCR: u32 = 6;
/// Drop a received CR.
pub const IGNCR: u32 = 7;
/// Make NL of a received CR.
pub const ICRNL: u32 = 8;
/// START and STOP steer output.
pub const IXON: u32 = 9;
/// Any character resumes output that STOP has halted.
pub const IXANY: u32 = 10;
/// Send STOP and START as the input queue fills and empties.
pub const IXOFF: u32 = 11;
/// Process output.
pub const OPOST: u32 = 12;
/// Post CR NL for NL.
pub const ONLCR: u32 = 13;
/// Post NL for CR.
pub const OCRNL: u32 = 14;
/// Post no CR at column 0.
pub const ONOCR: u32 = 15;
/// Post blanks for TAB.
pub const TAB3: u32 = 16;
/// INTR, QUIT and SUSP raise signals.
pub const ISIG: u32 = 17;
/// Canonical input: lines that can be edited.
pub const ICANON: u32 = 18;
/// Echo input.
pub const ECHO: u32 = 19;
/// ERASE and WERASE erase what they remove from the screen.
pub const ECHOE: u32 = 20;
/// KILL is echoed with a NL after it.
pub const ECHOK: u32 = 21;
/// With echoe and echok, KILL erases the line from the screen.
pub const ECHOKE: u32 = 22;
/// Echo NL also without echo.
pub const ECHONL: u32 = 23;
/// Show control characters as `^` and a letter.
pub const ECHOCTL: u32 = 24;
/// Signals drop neither input nor output.
pub const NOFLSH: u32 = 25;
/// LNEXT, WERASE and EOL2 are in force.
pub const IEXTEN: u32 = 26;
/// Input and output are UTF-8.
pub const IUTF8: u32 = 27;
/// Writes from the background raise TTOU.
pub const TOSTOP: u32 = 28;

/// How many control characters there are.
pub const CHARACTER_COUNT: u8 = 15;

/// Raises INT.
pub const VINTR: u8 = 0;
/// Raises QUIT.
pub const VQUIT: u8 = 1;
/// Erases the last character of the line.
pub const VERASE: u8 = 2;
/// Erases the line.
pub const VKILL: u8 = 3;
/// Ends a line without a byte.
pub const VEOF: u8 = 4;
/// TIME, in tenths of a second: a number and no character.
pub const VTIME: u8 = 5;
/// MIN, in bytes: a number and no character.
pub const VMIN: u8 = 6;
/// Resumes output.
pub const VSTART: u8 = 7;
/// Halts output.
pub const VSTOP: u8 = 8;
/// Raises SUSP.
pub const VSUSP: u8 = 9;
/// A further end of a line.
pub const VEOL: u8 = 10;
/// Has no function.
pub const VREPRINT: u8 = 11;
/// Erases the last word.
pub const VWERASE: u8 = 12;
/// Quotes the next character.
pub const VLNEXT: u8 = 13;
/// A second further end of a line.
pub const VEOL2: u8 = 14;
