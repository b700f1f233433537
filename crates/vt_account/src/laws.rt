//! What follows from the definitions alone.

ghost use Rattle.std.specs.Prelude.{◌≡◌, ◌<◌, ◌≤◌, ℕ, List, Ok, length, take};
ghost use Rattle.tty_base.specs.Characters.{good_characters};
ghost use Rattle.tty_base.specs.Lines.{arrival_count};
ghost use Rattle.uart_line.specs.Received.{received_list, lost_count};
ghost use Rattle.tty_calls.specs.Limits.{IsWithinLimits};
ghost use Rattle.vt_consoles.specs.declared.entries.VtEntry.{VtEntry};
ghost use Rattle.vt_text.specs.Sessions.{PlainVtSession};
ghost use Rattle.vt_text.specs.Reading.{vt_in};
ghost use Rattle.vt_text.specs.Rows.{two_consoles};
ghost use Rattle.vt_account.specs.Account.{IsAccount};
ghost use Rattle.vt_account.specs.Keyed.{HasAllPhases, IsWithinKeys, all_keys, consoles_in, keys_to, keyed};
ghost use Rattle.vt_account.specs.Keyed.{line_script};
ghost use Rattle.vt_account.specs.InOrder.{entries_in_order};
ghost use Rattle.vt_account.specs.Rows.{two_consoles_entries, refused_activation};
ghost use Rattle.vt_account.specs.Rows.{refused_activation_entries, console_0_only, told_from_before};

/// A law: the entries in the order of one thread are an account of their session.
pub fn entries_in_order_are_an_account()
    ensures { (session : PlainVtSession) → IsAccount session (entries_in_order session) }
{}

/// A law: on its line a console receives the keys that went there, phase by phase, as good characters and nothing
/// else, and none is lost.
pub fn keys_are_received_as_they_come()
    ensures received { (session : PlainVtSession) (entries : List VtEntry) (p k : ℕ)
        → HasAllPhases session
        → p < session.calls.ports
        → received_list (line_script p k (keyed session entries))
        ≡ good_characters (keys_to p (all_keys (take k session.phases)) (consoles_in entries)) }
    ensures arrived { (session : PlainVtSession) (entries : List VtEntry) (p k : ℕ)
        → HasAllPhases session
        → p < session.calls.ports
        → arrival_count (line_script p k (keyed session entries))
        ≡ length (keys_to p (all_keys (take k session.phases)) (consoles_in entries)) }
    ensures none_lost { (session : PlainVtSession) (entries : List VtEntry) (p k : ℕ)
        → HasAllPhases session
        → p < session.calls.ports
        → lost_count (line_script p k (keyed session entries)) ≡ 0 }
{}

/// A law: the entries of worked sessions on one thread. After an activation that is refused no console is another's.
pub fn worked_sessions_have_their_entries()
    ensures two_consoles { entries_in_order two_consoles ≡ two_consoles_entries }
    ensures refused { entries_in_order refused_activation ≡ refused_activation_entries }
{}

/// A law: no account of a worked session has keys that go to console 0 after an activation of the other, or tells what
/// was active before.
pub fn wrong_entries_are_no_account()
    ensures console_0 { IsAccount two_consoles console_0_only → ⊥ }
    ensures told { IsAccount two_consoles told_from_before → ⊥ }
{}

/// A law: the session that the consoles play keeps the limits of every session.
pub fn keyed_sessions_are_within_limits()
    ensures { (session : PlainVtSession) (entries : List VtEntry)
        → IsWithinKeys session
        → IsWithinLimits (keyed session entries) }
{}

/// A law: the session of a text keeps the limits of sessions of consoles, and has far fewer entries than a board may
/// have, so that its board is never full.
pub fn sessions_that_are_read_are_within_keys()
    ensures keys { (text : List ℕ) (session : PlainVtSession) → vt_in text ≡ Ok session → IsWithinKeys session }
    ensures entries { (text : List ℕ) (session : PlainVtSession)
        → vt_in text ≡ Ok session
        → length (entries_in_order session) ≤ 327680 }
{}
