//! Laws of worked families of processes: who is stopped, who is refused, and who takes and leaves the port.

ghost use Rattle.std.specs.Prelude.{◌≡◌, true, false, None, Some, Ok};
ghost use Rattle.job_control.specs.declared.processes.JobAct.TheVariants.{Read, Write, Change};
ghost use Rattle.job_control.specs.declared.processes.JobSignal.TheVariants.{Ttin, Ttou};
ghost use Rattle.job_control.specs.declared.processes.Judged.TheVariants.{Pass, Eio, Stop};
ghost use Rattle.job_control.specs.declared.processes.JobRefusal.TheVariants.{EPERM, ENOTTY};
ghost use Rattle.job_control.specs.Control.{first_jobs, judged, sctty_refusal, after_sctty, no_terminal, after_notty};
ghost use Rattle.job_control.specs.Control.{foreground_of, gpgrp_answer, spgrp_refusal, after_exit, leader_of};
ghost use Rattle.job_control.specs.Rows.{family, held, given_over, orphan_held};

/// A law: a job in the background is stopped where it reads or changes the port, and where it writes under TOSTOP; in
/// the foreground it is not.
pub fn background_is_stopped()
    ensures read { judged held 1 Read false ≡ Stop Ttin }
    ensures write { judged held 1 Write false ≡ Pass }
    ensures write_stopped { judged held 1 Write true ≡ Stop Ttou }
    ensures change { judged held 1 Change false ≡ Stop Ttou }
    ensures shell { judged held 0 Read false ≡ Pass }
    ensures given { foreground_of given_over ≡ Some 2 }
    ensures foreground { judged given_over 1 Read false ≡ Pass }
    ensures shell_behind { judged given_over 0 Read false ≡ Eio }
    ensures nobody_holds { judged (first_jobs family) 1 Read false ≡ Pass }
{}

/// A law: an orphaned group is refused and not stopped; a group is orphaned where the last parent ends that tied it.
pub fn orphans_are_refused()
    ensures read { judged orphan_held 1 Read false ≡ Eio }
    ensures write { judged orphan_held 1 Write false ≡ Pass }
    ensures change { judged orphan_held 1 Change false ≡ Eio }
    ensures child_ends { judged (after_exit held 2) 1 Read false ≡ Stop Ttin }
    ensures tie_ends { judged (after_exit held 1) 2 Read false ≡ Eio }
{}

/// A law: who may take the port, who may give it up, and what is left.
pub fn port_is_taken_and_left()
    ensures no_leader { sctty_refusal (first_jobs family) 1 ≡ Some EPERM }
    ensures again { after_sctty given_over 0 ≡ given_over }
    ensures job_gives_up { no_terminal (after_notty held 1) 1 ≡ Some ENOTTY }
    ensures others_stay { gpgrp_answer (after_notty held 1) 0 ≡ Ok 1 }
    ensures leader_gives_up { foreground_of (after_notty held 0) ≡ None }
    ensures no_group { spgrp_refusal held 0 3 ≡ Some EPERM }
    ensures leader { leader_of held ≡ Some 0 }
    ensures leader_ends { foreground_of (after_exit held 0) ≡ None }
{}
