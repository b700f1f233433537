//! Worked lines and worked texts, as laws: what each says, or why it is wrong.

ghost use Rattle.std.specs.Prelude.{◌≡◌, ℕ, List, Ok, Err, map};
ghost use Rattle.modem_text.specs.Items.{item_of};
ghost use Rattle.modem_text.specs.Left.{IsLeft};
ghost use Rattle.modem_text.specs.Reading.{modem_in};
ghost use Rattle.modem_text.specs.Rows.{line_rows, refused_rows, two_ports_text, two_ports};
ghost use Rattle.modem_text.specs.Sessions.{ModemSession};
ghost use Rattle.modem_text.specs.Within.{IsModemSessionWithin};

/// A law: what worked lines say, and why they are wrong.
pub fn worked_lines_are_read()
    ensures { map (λ row. item_of 2 row.verb row.arguments) line_rows ≡ map (λ row. row.read) line_rows }
{}

/// A law: the first wrong line of worked texts, and why it is wrong.
pub fn worked_texts_are_refused_at_their_lines()
    ensures { map (λ row. modem_in row.text) refused_rows ≡ map (λ row. Err row.line) refused_rows }
{}

/// A law: the session of a worked text.
pub fn a_worked_text_is_read()
    ensures { modem_in two_ports_text ≡ Ok two_ports }
{}

/// A law: what is left of a text that is read, without the lines that only it has, spells a session of ports, and what
/// is read is that session with what its phases have beside: the calls and the items of modem blocks that its own lines
/// say, in their order.
pub fn what_is_left_is_a_session()
    ensures { (text : List ℕ) (session : ModemSession) → modem_in text ≡ Ok session → IsLeft text session }
{}

/// A law: a session that is read keeps the limits of every session with modem lines.
pub fn parsed_modem_sessions_are_within_limits()
    ensures { (text : List ℕ) (session : ModemSession) → modem_in text ≡ Ok session → IsModemSessionWithin session }
{}
