//! What becomes of ports that were played, for each session that their callers' calls are found to make.

ghost use Rattle.std.specs.Prelude.{◌≡◌, ◌+◌, ℕ, List, [], ◌∷◌, ◌++◌, All, length};
ghost use Rattle.tty_base.specs.declared.characters.Flagged.{Flagged};
ghost use Rattle.word_ring.specs.Ends.{PutterState};
ghost use Rattle.uart_line.specs.LineState.{LineState};
ghost use Rattle.tty_calls.specs.declared.answers.PortEnd.{PortEnd};
ghost use Rattle.tty_calls.specs.declared.journals.PortRun.{PortRun};
ghost use Rattle.port_core.specs.Ports.{PortValue};
ghost use Rattle.play_base.specs.Roles.{Scene};
ghost use Rattle.play_base.specs.Phases.{HaveSeenAll, IsAtEnd, IsPortOf, IsFullRun};
ghost use Rattle.play_base.specs.Leaving.{EndsJournal};
ghost use Rattle.play_base.specs.Played.{IsPlayedOn, IsRunInOrder};
ghost use Rattle.play_base.specs.Scenes.{IsOfScene};
ghost use Rattle.job_text.specs.Events.{JobLog};
ghost use Rattle.job_text.specs.Sessions.{JobsSession};
ghost use Rattle.job_text.specs.Within.{IsJobsSessionWithin};
ghost use Rattle.job_one.specs.Events.{DeskState};
ghost use Rattle.job_one.specs.Played.{derived_with, AreJobsPlayed, all_passed, by_blocks};
ghost use Rattle.passed_calls.specs.Within.{ArePassedWithin};
ghost use Rattle.passed_ports.specs.Ports.{IsSceneOf};
ghost use Rattle.job_ports.specs.Ports.{IsJobsEnd, IsJobsFull, IsPortPlayed, AreFirstPlayed};
ghost use Rattle.order_laws.specs.Sessions.{journal_on};

/// A port whose phases were played is hung up, and then it was played: its log is whole.
pub fn a_port_hung_up_was_played()
    ensures { (first : Scene) (session : JobsSession) (v : PortValue) (putter : PutterState Flagged) (line : LineState)
        (run : ℕ) (d : DeskState) (left : PortRun) (end : PortEnd)
        → IsSceneOf first (by_blocks session)
        → IsJobsEnd first session v putter line run d
        → EndsJournal v left.journal.items
        → ((s : Scene) → IsAtEnd s v putter line → IsPlayedOn s.port s.session left end)
        → ((s : Scene)
        → IsOfScene s v
        → v.terminal.phase ≡ length s.session.phases
        → HaveSeenAll s v.journal line.report.overruns.items
        → IsRunInOrder s.port s.session left)
        → IsPortPlayed first.port session d.log left end }
{}

/// A port whose journal is full was played as far as it went.
pub fn a_full_port_was_played()
    ensures { (first : Scene) (session : JobsSession) (v : PortValue) (putter : PutterState Flagged) (line : LineState)
        (d : DeskState) (left : PortRun) (end : PortEnd)
        → IsSceneOf first (by_blocks session)
        → IsJobsFull first session v putter line d
        → left.journal.items ≡ v.journal
        → ((s : Scene) → IsPortOf s v → IsFullRun s v putter line → IsPlayedOn s.port s.session left end)
        → IsPortPlayed first.port session d.log left end }
{}

/// Ports that were played one after the other, each with a log of its own, were all played; and with all ports of the
/// session that is the session that the log and the journals make, within the limits of calls.
pub fn ports_played_one_by_one_are_played()
    ensures none { (session : JobsSession) → AreFirstPlayed session 0 [] [] [] }
    ensures more { (session : JobsSession) (count : ℕ) (log own : JobLog) (runs : List PortRun) (ends : List PortEnd)
        (run : PortRun) (end : PortEnd)
        → AreFirstPlayed session count log runs ends
        → All (λ l. l.port ≡ count) own
        → IsPortPlayed count session own run end
        → AreFirstPlayed session (count + 1) (log ++ own) (runs ++ run ∷ []) (ends ++ end ∷ []) }
    ensures all { (session : JobsSession) (log : JobLog) (runs : List PortRun) (ends : List PortEnd)
        → IsJobsSessionWithin session → AreFirstPlayed session session.ports log runs ends
        → AreJobsPlayed session log runs ends (derived_with session log runs) }
    ensures within { (session : JobsSession) (log : JobLog) (runs : List PortRun) (ends : List PortEnd)
        → AreFirstPlayed session session.ports log runs ends
        → ArePassedWithin (λ p. all_passed session log p (journal_on runs p)) }
{}
