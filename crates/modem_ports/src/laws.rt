//! What becomes of ports that were played, for each session that their callers' calls are found to make.

ghost use Rattle.std.specs.Prelude.{◌≡◌, ◌+◌, ℕ, List, [], ◌∷◌, ◌++◌, All, length};
ghost use Rattle.tty_base.specs.declared.characters.Flagged.{Flagged};
ghost use Rattle.word_ring.specs.Ends.{PutterState};
ghost use Rattle.uart_line.specs.LineState.{LineState};
ghost use Rattle.tty_calls.specs.declared.answers.PortEnd.{PortEnd};
ghost use Rattle.tty_calls.specs.declared.journals.PortRun.{PortRun};
ghost use Rattle.port_core.specs.Ports.{PortValue};
ghost use Rattle.play_base.specs.Roles.{Scene};
ghost use Rattle.play_base.specs.Phases.{IsAtEnd, IsPortOf, IsFullRun, EndsRun};
ghost use Rattle.play_base.specs.Leaving.{EndsJournal};
ghost use Rattle.play_base.specs.Played.{IsPlayedOn};
ghost use Rattle.play_base.specs.Scenes.{HasAnyOrder, IsOfSceneIn};
ghost use Rattle.passed_calls.specs.Within.{ArePassedWithin};
ghost use Rattle.passed_ports.specs.Ports.{IsSceneOf};
ghost use Rattle.modem_text.specs.Events.{ModemLog};
ghost use Rattle.modem_text.specs.Sessions.{ModemSession};
ghost use Rattle.modem_text.specs.Within.{IsModemSessionWithin};
ghost use Rattle.modem_one.specs.Desk.{DeskState};
ghost use Rattle.modem_one.specs.Played.{derived_with, AreModemsPlayed, by_blocks, all_passed};
ghost use Rattle.modem_ports.specs.Ports.{IsModemsEnd, IsModemsFull, IsPortPlayed, AreFirstPlayed};
ghost use Rattle.order_laws.specs.Sessions.{journal_on};

/// A port whose phases were played is hung up, and then it was played: its log is whole.
pub fn a_modem_port_hung_up_was_played()
    ensures { (first : Scene) (session : ModemSession) (v : PortValue) (putter : PutterState Flagged) (line : LineState)
        (run : ℕ) (d : DeskState) (left : PortRun) (end : PortEnd)
        → IsSceneOf first (by_blocks session)
        → IsModemsEnd first session v putter line run d
        → EndsJournal v left.journal.items
        → ((s : Scene) → IsAtEnd s v putter line → IsPlayedOn s.port s.session left end)
        → ((s : Scene)
        → IsOfSceneIn HasAnyOrder s v
        → v.terminal.phase ≡ length s.session.phases
        → EndsRun s v.journal line.report.overruns.items left)
        → IsPortPlayed first.port session d.log left end }
{}

/// A port whose journal is full was played as far as it went.
pub fn a_full_modem_port_was_played()
    ensures { (first : Scene) (session : ModemSession) (v : PortValue) (putter : PutterState Flagged) (line : LineState)
        (d : DeskState) (left : PortRun) (end : PortEnd)
        → IsSceneOf first (by_blocks session)
        → IsModemsFull first session v putter line d
        → left.journal.items ≡ v.journal
        → ((s : Scene) → IsPortOf s v → IsFullRun s v putter line → IsPlayedOn s.port s.session left end)
        → IsPortPlayed first.port session d.log left end }
{}

/// Ports that were played one after the other, each with a log of its own, were all played; and with all ports of the
/// session that is the session that the log and the journals make, within the limits of calls.
pub fn modem_ports_are_played()
    ensures none { (session : ModemSession) → AreFirstPlayed session 0 [] [] [] }
    ensures more { (session : ModemSession) (count : ℕ) (log own : ModemLog) (runs : List PortRun) (ends : List PortEnd)
        (run : PortRun) (end : PortEnd)
        → AreFirstPlayed session count log runs ends
        → All (λ l. l.port ≡ count) own
        → IsPortPlayed count session own run end
        → AreFirstPlayed session (count + 1) (log ++ own) (runs ++ run ∷ []) (ends ++ end ∷ []) }
    ensures all { (session : ModemSession) (log : ModemLog) (runs : List PortRun) (ends : List PortEnd)
        → IsModemSessionWithin session
        → AreFirstPlayed session session.ports log runs ends
        → AreModemsPlayed session log runs ends (derived_with session log runs) }
    ensures within { (session : ModemSession) (log : ModemLog) (runs : List PortRun) (ends : List PortEnd)
        → AreFirstPlayed session session.ports log runs ends
        → ArePassedWithin (λ p. all_passed session log p (journal_on runs p)) }
{}
