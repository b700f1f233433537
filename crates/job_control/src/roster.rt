//! What is asked of a list of processes, by place.

ghost use Rattle.std.specs.Prelude.{◌≡◌, ℕ, ◌-◌, ◌+◌, ◌≤◌, ◌<◌, ◌==◌, [], ◌∷◌, ◌++◌, count_by};
ghost use Rattle.std.specs.Prelude.{length, map, replicate, slice_index_or, slice_set, IfOk, OnOk};
ghost use Rattle.tty_base.specs.Sizes.{GROUP_END, MOST_PROCESSES};
ghost use Rattle.job_control.specs.Roster.{session_at, group_at, parent_at, leads_at};
ghost use Rattle.job_control.specs.Roster.{has_exited, ties_to, is_tied, places_of};
ghost use Rattle.job_control.specs.Keeping.{AreChildren, children_of, counted, key_of, key_at, life_of};
ghost use Rattle.job_control.specs.Keeping.{looses, tie_of, ties_count, living_count, with_child};

use super::census::Census;
use super::processes::Proc;
use std::alloc::Global;
use tty_base::NoMemory;
use tty_base::sizes::GROUP_END;

pub(crate) fn session_of(procs: &[Proc], place: u16) -> u16
    ensures { result ≡ session_at procs.now place }
{
    procs.get(usize::from(place)).map_or(0, |proc| proc.session)
}

pub(crate) fn group_of(procs: &[Proc], place: u16) -> u16
    ensures { result ≡ group_at procs.now place }
{
    procs.get(usize::from(place)).map_or(0, |proc| proc.group)
}

fn parent_of(procs: &[Proc], place: u16) -> Option<u16>
    ensures { result ≡ parent_at procs.now place }
{
    procs
        .get(usize::from(place))
        .map_or(None, |proc| proc.parent)
}

pub(crate) fn is_leader(procs: &[Proc], place: u16) -> bool
    ensures { result ≡ leads_at procs.now place }
{
    procs
        .get(usize::from(place))
        .map_or(false, |proc| proc.leader)
}

pub(crate) fn has_exited(exited: &[bool], place: u16) -> bool
    ensures { result ≡ has_exited exited.now place }
{
    exited.get(usize::from(place)).copied().unwrap_or(true)
}

/// A session and a group as one number.
pub(crate) fn key(session: u16, group: u16) -> u32
    ensures { result ≡ key_of session group }
{
    u32::from(session) * GROUP_END + u32::from(group)
}

/// Those of a process as one number.
pub(crate) fn key_of(procs: &[Proc], place: u16) -> u32
    ensures key { result ≡ key_at procs.now place }
    ensures fits { group_at procs.now place < GROUP_END }
{
    key(session_of(procs, place), group_of(procs, place))
}

fn ties_to(procs: &[Proc], exited: &[bool], child: u16, parent: u16) -> bool
    ensures { result ≡ ties_to procs.now exited.now child parent }
{
    !has_exited(exited, parent)
        && !(group_of(procs, parent) == group_of(procs, child))
        && session_of(procs, parent) == session_of(procs, child)
}

fn is_tied(procs: &[Proc], exited: &[bool], place: u16) -> bool
    ensures { result ≡ is_tied procs.now exited.now place }
{
    if has_exited(exited, place) {
        return false;
    }
    match parent_of(procs, place) {
        None => false,
        Some(parent) => ties_to(procs, exited, place, parent),
    }
}

/// Counts the processes that tie each group.
pub(crate) fn ties_in(alloc: Global, procs: &[Proc], exited: &[bool]) -> Result<Census, NoMemory>
    requires { length procs.now ≤ MOST_PROCESSES }
    ensures { IfOk result (λ ties. (group : ℕ) → counted ties group ≡ ties_count procs.now exited.now group) }
{
    let mut ties = Census::new(alloc)?;
    for place in 0..procs.len() as u16 {
        if is_tied(procs, exited, place) {
            ties.add(u32::from(group_of(procs, place)))?;
        }
    }
    Ok(ties)
}

/// Counts the processes of each session and group that have not exited.
pub(crate) fn living_in(alloc: Global, procs: &[Proc], exited: &[bool]) -> Result<Census, NoMemory>
    requires { length procs.now ≤ MOST_PROCESSES }
    ensures counts { IfOk result (λ living. (key : ℕ) → counted living key ≡ living_count procs.now exited.now key) }
    ensures fits { IfOk result (λ living. (place : ℕ) → group_at procs.now place < GROUP_END) }
{
    let mut living = Census::new(alloc)?;
    for place in 0..procs.len() as u16 {
        let key = key_of(procs, place);
        if !has_exited(exited, place) {
            living.add(key)?;
        }
    }
    Ok(living)
}

/// Takes a process that has not exited from the count of its session and group.
pub(crate) fn end_life(living: &mut Census, procs: &[Proc], exited: &[bool], gone: u16)
    ensures { (key : ℕ) → counted living.new key ≡ counted living.old key - life_of procs.now exited.now key gone }
{
    if has_exited(exited, gone) {
        return;
    }
    living.take(key_of(procs, gone));
}

/// Takes away the ties that end with a process: its own, and those of its children.
pub(crate) fn untie(ties: &mut Census, procs: &[Proc], exited: &[bool], children: &[u16], gone: u16)
    requires children { children.now ≡ children_of procs.now gone }
    requires within { gone < length procs.now }
    ensures { (group : ℕ)
        → counted ties.new group
        ≡ counted ties.old group - count_by (looses procs.now exited.now gone group) (places_of procs.now) }
{
    untie_one(ties, procs, exited, gone);
    for child in children {
        untie_one(ties, procs, exited, *child);
    }
}

fn untie_one(ties: &mut Census, procs: &[Proc], exited: &[bool], place: u16)
    ensures { (group : ℕ) → counted ties.new group ≡ counted ties.old group - tie_of procs.now exited.now group place }
{
    if is_tied(procs, exited, place) {
        ties.take(u32::from(group_of(procs, place)));
    }
}

/// Lists the children of each process.
pub(crate) fn children_in(alloc: Global, procs: &[Proc]) -> Result<Vec<Vec<u16>>, NoMemory>
    requires { length procs.now ≤ MOST_PROCESSES }
    ensures { IfOk result (λ lists. AreChildren procs.now (map (λ list. list.items) lists.items)) }
{
    let mut lists = empty_lists(alloc, procs.len())?;
    for place in 0..procs.len() as u16 {
        add_child(&mut lists, parent_of(procs, place), place)?;
    }
    Ok(lists)
}

fn empty_lists(alloc: Global, count: usize) -> Result<Vec<Vec<u16>>, NoMemory>
    ensures { IfOk result (λ lists. map (λ list. list.items) lists.items ≡ replicate count []) }
{
    let mut lists = Vec::new(alloc);
    for _ in 0..count {
        lists.push(Vec::new(alloc))?;
    }
    Ok(lists)
}

/// Adds a process to its parent's list. It is no child of its own.
fn add_child(lists: &mut Vec<Vec<u16>>, parent: Option<u16>, place: u16) -> Result<(), NoMemory>
    ensures { OnOk result (map (λ list. list.items) lists.new.items
        ≡ with_child (map (λ list. list.items) lists.old.items) parent place) }
{
    match parent {
        None => Ok(()),
        Some(parent) => {
            if parent == place {
                return Ok(());
            }
            add_at(lists, usize::from(parent), place)
        }
    }
}

fn add_at(lists: &mut [Vec<u16>], at: usize, place: u16) -> Result<(), NoMemory>
    ensures { OnOk result (map (λ list. list.items) lists.new
        ≡ slice_set (map (λ list. list.items) lists.old) at
        (slice_index_or (map (λ list. list.items) lists.old) at [] ++ place ∷ [])) }
{
    if at < lists.len() {
        lists[at].push(place)?;
    }
    Ok(())
}

/// The list at a place.
pub(crate) fn list_at(lists: &[Vec<u16>], at: u16) -> &[u16]
    ensures { result.now ≡ slice_index_or (map (λ list. list.items) lists.now) at [] }
{
    match lists.get(usize::from(at)) {
        None => &[],
        Some(list) => list.as_slice(),
    }
}
