//! Who holds a port, which group is in the foreground, and what each call of job control does.

ghost use Rattle.std.specs.Prelude.{◌≡◌, ◌==◌, ◌<◌, ◌≤◌, ℕ, false, true, length, map, slice_get};
ghost use Rattle.std.specs.Prelude.{slice_index, slice_index_or, slice_set, replicate, EachIndex, IfOk};
ghost use Rattle.std.specs.Option.{option_map_or};
ghost use Rattle.tty_base.specs.Sizes.{MOST_PROCESSES};
ghost use Rattle.job_control.specs.Roster.{group_at, has_living};
ghost use Rattle.job_control.specs.Control.{first_jobs, controls, in_background, leads_holder, ignores_ttin};
ghost use Rattle.job_control.specs.Control.{ignores_ttou, is_orphan, change_judged, judged, done_unless, sctty_refusal};
ghost use Rattle.job_control.specs.Control.{after_sctty, no_terminal, let_go, after_notty, foreground_of, gpgrp_answer};
ghost use Rattle.job_control.specs.Control.{spgrp_refusal, after_spgrp, after_exit, leader_of};

use super::census::Census;
use super::processes::{JobAct, JobRefusal, JobSignal, Judged, Proc};
use super::roster::{
    children_in, end_life, group_of, has_exited, is_leader, key, list_at, living_in, session_of,
    ties_in, untie,
};
use std::alloc::Global;
use std::marker::Model;
use tty_base::NoMemory;

/// The session that holds a port: the place of its leader, its number, and the group that is in the foreground.
#[derive(Clone, Copy)]
pub(crate) struct Holder {
    pub(crate) leader: u16,
    pub(crate) session: u16,
    pub(crate) foreground: u16,
}

/// Job control of a port. Processes are named by their places in the list that `new` is given; only `new` takes memory.
#[derive(Drop)]
pub struct Jobs {
    procs: Vec<Proc>,
    exited: Vec<bool>,
    // by place: at which taking of the port it was given up
    given_up_at: Vec<u64>,
    taken: u64,
    holder: Option<Holder>,
    // for each group: how many of its processes tie it to its session
    ties: Census,
    // for each session and group: how many of its processes have not exited
    living: Census,
    // by place: the processes whose parent it is
    children: Vec<Vec<u16>>,
}

impl Model for Jobs {
    ghost use Rattle.std.specs.Prelude.{◌==◌, map};
    ghost use Rattle.job_control.specs.Control.{JobState};
    ghost use Rattle.job_control.specs.Keeping.{IsKept};

    ghost Value = { JobState };

    ghost view = { λ j. record {
      procs = j.procs.items;
      exited = j.exited.items;
      given_up = map (λ mark. mark == j.taken) j.given_up_at.items;
      holder = j.holder;
    } };

    ghost invariant = { λ j. IsKept j.procs.items j.exited.items j.given_up_at.items j.taken j.ties j.living
        (map (λ list. list.items) j.children.items) };
}

impl Jobs {
    /// Nobody holds the port. There are at most 1,024 processes.
    pub fn new(alloc: Global, procs: &[Proc]) -> Result<Jobs, NoMemory>
        requires { length procs.now ≤ MOST_PROCESSES }
        ensures { IfOk result (λ jobs. jobs ≡ first_jobs procs.now) }
    {
        let kept = copy_of(alloc, procs)?;
        let exited = no_flags(alloc, procs.len())?;
        let given_up_at = no_marks(alloc, procs.len())?;
        let ties = ties_in(alloc, procs, exited.as_slice())?;
        let living = living_in(alloc, procs, exited.as_slice())?;
        let children = children_in(alloc, procs)?;
        Ok(Jobs {
            procs: kept,
            exited,
            given_up_at,
            taken: 1,
            holder: None,
            ties,
            living,
            children,
        })
    }

    /// What an act of a process meets before it is tried: from the background a read is stopped by TTIN, and a
    /// change, or a write under TOSTOP, by TTOU.
    pub fn check(&self, proc: u16, act: JobAct, tostop: bool) -> Judged
        ensures { result ≡ judged self.now proc act tostop }
    {
        if !self.is_background(proc) {
            return Judged::Pass;
        }
        match act {
            JobAct::Read => {
                if self.ignores_ttin(proc) || self.is_orphan(proc) {
                    Judged::Eio
                } else {
                    Judged::Stop(JobSignal::Ttin)
                }
            }
            JobAct::Write => {
                if tostop {
                    self.check_change(proc)
                } else {
                    Judged::Pass
                }
            }
            JobAct::Change => self.check_change(proc),
        }
    }

    /// A process makes the port its controlling terminal (ioctl_tty(2), TIOCSCTTY): the leader of a session takes a
    /// port that nobody holds. Where its session holds it already, nothing changes.
    pub fn sctty(&mut self, proc: u16) -> Result<(), JobRefusal>
        ensures answer { result ≡ done_unless (sctty_refusal self.old proc) }
        ensures after { self.new ≡ after_sctty self.old proc }
    {
        if self.leads(proc) {
            return Ok(());
        }
        if !is_leader(self.procs.as_slice(), proc) || self.holder.is_some() {
            return Err(JobRefusal::EPERM);
        }
        self.forget_given_up();
        self.holder = Some(Holder {
            leader: proc,
            session: session_of(self.procs.as_slice(), proc),
            foreground: group_of(self.procs.as_slice(), proc),
        });
        Ok(())
    }

    /// A process gives up its controlling terminal (ioctl_tty(2), TIOCNOTTY). Where it leads the session that holds the
    /// port, nobody holds it any more.
    pub fn notty(&mut self, proc: u16) -> Result<(), JobRefusal>
        requires { proc < length self.old.procs }
        ensures answer { result ≡ done_unless (no_terminal self.old proc) }
        ensures after { self.new ≡ after_notty self.old proc }
    {
        if !self.controls(proc) {
            return Err(JobRefusal::ENOTTY);
        }
        if self.leads(proc) {
            self.holder = None;
        } else {
            self.mark(proc);
        }
        Ok(())
    }

    /// The group that is in the foreground (ioctl_tty(2), TIOCGPGRP).
    pub fn gpgrp(&self, proc: u16) -> Result<u16, JobRefusal>
        ensures { result ≡ gpgrp_answer self.now proc }
    {
        match self.holder {
            Some(holder) if self.controls(proc) => Ok(holder.foreground),
            _ => Err(JobRefusal::ENOTTY),
        }
    }

    /// Puts a group into the foreground (ioctl_tty(2), TIOCSPGRP): one in which the session of the process has a
    /// process that has not exited.
    pub fn spgrp(&mut self, proc: u16, group: u16) -> Result<(), JobRefusal>
        ensures answer { result ≡ done_unless (spgrp_refusal self.old proc group) }
        ensures after { self.new ≡ after_spgrp self.old proc group }
    {
        if !self.controls(proc) {
            return Err(JobRefusal::ENOTTY);
        }
        if !self.has_living(session_of(self.procs.as_slice(), proc), group) {
            return Err(JobRefusal::EPERM);
        }
        self.holder = self.holder.map(|holder| Holder {
            foreground: group,
            ..holder
        });
        Ok(())
    }

    /// A process ends. Where it leads the session that holds the port, nobody holds it any more.
    pub fn exit(&mut self, proc: u16)
        requires { proc < length self.old.procs }
        ensures { self.new ≡ after_exit self.old proc }
    {
        if self.leads(proc) {
            self.holder = None;
        }
        self.end(proc);
    }

    /// The port was hung up (vhangup(2)): nobody holds it any more.
    pub fn hung_up(&mut self)
        ensures { self.new ≡ let_go self.old }
    {
        self.holder = None;
    }

    /// The group that is in the foreground, where a session holds the port.
    pub fn foreground(&self) -> Option<u16>
        ensures { result ≡ foreground_of self.now }
    {
        self.holder.map(|holder| holder.foreground)
    }

    /// The leader of the session that holds the port, where it has not exited.
    pub fn leader(&self) -> Option<u16>
        ensures { result ≡ leader_of self.now }
    {
        match self.holder {
            Some(holder) if !has_exited(self.exited.as_slice(), holder.leader) => {
                Some(holder.leader)
            }
            _ => None,
        }
    }

    /// Whether the port is the controlling terminal of a process.
    pub fn controls(&self, proc: u16) -> bool
        ensures { result ≡ controls self.now proc }
    {
        match self.holder {
            None => false,
            Some(holder) => {
                holder.session == session_of(self.procs.as_slice(), proc)
                    && !self.has_given_up(proc)
            }
        }
    }

    /// The group of a process.
    pub fn group(&self, proc: u16) -> u16
        ensures { result ≡ group_at self.now.procs proc }
    {
        group_of(self.procs.as_slice(), proc)
    }

    fn is_background(&self, proc: u16) -> bool
        ensures { result ≡ in_background self.now proc }
    {
        match self.holder {
            None => false,
            Some(holder) => {
                holder.session == session_of(self.procs.as_slice(), proc)
                    && !self.has_given_up(proc)
                    && !(holder.foreground == group_of(self.procs.as_slice(), proc))
            }
        }
    }

    fn has_given_up(&self, proc: u16) -> bool
        ensures { result ≡ slice_index_or self.now.given_up proc false }
    {
        has_mark(self.given_up_at.as_slice(), self.taken, proc)
    }

    /// Whether a process leads the session that holds the port.
    pub fn leads(&self, proc: u16) -> bool
        ensures { result ≡ leads_holder self.now proc }
    {
        match self.holder {
            None => false,
            Some(holder) => {
                is_leader(self.procs.as_slice(), proc)
                    && holder.session == session_of(self.procs.as_slice(), proc)
            }
        }
    }

    fn ignores_ttin(&self, proc: u16) -> bool
        ensures { result ≡ ignores_ttin self.now proc }
    {
        self.procs
            .get(usize::from(proc))
            .map_or(false, |proc| proc.nottin)
    }

    fn ignores_ttou(&self, proc: u16) -> bool
        ensures { result ≡ ignores_ttou self.now proc }
    {
        self.procs
            .get(usize::from(proc))
            .map_or(false, |proc| proc.nottou)
    }

    // Whether the group of a process is orphaned.
    fn is_orphan(&self, proc: u16) -> bool
        ensures { result ≡ is_orphan self.now proc }
    {
        self.ties
            .count(u32::from(group_of(self.procs.as_slice(), proc)))
            == 0
    }

    // Whether a process of a session and group has not exited.
    fn has_living(&self, session: u16, group: u16) -> bool
        ensures { result ≡ has_living self.now.procs self.now.exited session group }
    {
        !(self.living.count(key(session, group)) == 0)
    }

    fn check_change(&self, proc: u16) -> Judged
        ensures { result ≡ change_judged self.now proc }
    {
        if self.ignores_ttou(proc) {
            Judged::Pass
        } else if self.is_orphan(proc) {
            Judged::Eio
        } else {
            Judged::Stop(JobSignal::Ttou)
        }
    }

    // Nobody has given the port up.
    fn forget_given_up(&mut self)
        ensures { self.new ≡ record self.old { given_up = replicate (length self.old.procs) false } }
    {
        self.taken = next_taking(self.given_up_at.as_mut_slice(), self.taken);
    }

    // A process has given the port up.
    fn mark(&mut self, proc: u16)
        requires { proc < length self.old.procs }
        ensures { self.new ≡ record self.old { given_up = slice_set self.old.given_up proc true } }
    {
        self.given_up_at[usize::from(proc)] = self.taken;
    }

    fn end(&mut self, proc: u16)
        requires { proc < length self.old.procs }
        ensures { self.new ≡ record self.old { exited = slice_set self.old.exited proc true } }
    {
        let procs = self.procs.as_slice();
        let exited = self.exited.as_slice();
        end_life(&mut self.living, procs, exited, proc);
        let lists = self.children.as_slice();
        let children = list_at(lists, proc);
        untie(&mut self.ties, procs, exited, children, proc);
        self.exited[usize::from(proc)] = true;
    }
}

// The number of the next taking of a port: no mark is of it. Past the last number they begin anew.
fn next_taking(marks: &mut [u64], taken: u64) -> u64
    requires { (p : ℕ) → slice_index marks.old p ≤ taken }
    ensures none { map (λ mark. mark == result) marks.new ≡ replicate (length marks.old) false }
    ensures past { (p : ℕ) → slice_index marks.new p ≤ result }
{
    if taken < u64::MAX {
        return taken + 1;
    }
    clear(marks);
    1
}

fn was_marked(marks: &[u64], taken: u64, place: u16) -> bool
    ensures { result ≡ option_map_or (λ mark. mark == taken) (slice_get marks.now place) false }
{
    marks
        .get(usize::from(place))
        .map_or(false, |mark| *mark == taken)
}

// Whether the mark at a place is of this taking.
fn has_mark(marks: &[u64], taken: u64, place: u16) -> bool
    ensures { result ≡ slice_index_or (map (λ mark. mark == taken) marks.now) place false }
{
    was_marked(marks, taken, place)
}

fn clear(marks: &mut [u64])
    ensures { EachIndex marks.new (λ p. slice_index marks.new p ≡ 0) }
{
    for mark in marks.iter_mut() {
        *mark = 0;
    }
}

fn copy_of(alloc: Global, procs: &[Proc]) -> Result<Vec<Proc>, NoMemory>
    ensures { IfOk result (λ copy. copy.items ≡ procs.now) }
{
    let mut copy = Vec::new(alloc);
    copy.extend_from_slice(procs)?;
    Ok(copy)
}

fn no_flags(alloc: Global, count: usize) -> Result<Vec<bool>, NoMemory>
    ensures { IfOk result (λ flags. flags.items ≡ replicate count false) }
{
    Ok(vec![in alloc; false; count]?)
}

fn no_marks(alloc: Global, count: usize) -> Result<Vec<u64>, NoMemory>
    ensures { IfOk result (λ marks. marks.items ≡ replicate count 0) }
{
    Ok(vec![in alloc; 0; count]?)
}
