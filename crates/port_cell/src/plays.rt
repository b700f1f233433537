//! The steps of a seat as the table under a cell takes them, for proofs alone.

ghost use Rattle.std.specs.Prelude.{List, []};
ghost use Rattle.port_cell.specs.declared.kept.Stamped.{Stamped};
ghost use Rattle.port_cell.specs.Plays.{Enters, Leaves, Marks, Looks, Installs, Takes, Notes, Gives};
ghost use Rattle.port_cell.specs.Views.{with_one_made, next_view, with_joined, spent_view};

use crate::kept::{Kept, Stamped};
use crate::view::View;
use atomic_table::{Join, Play, Split};
use std::marker::{Brand, PhantomData};

pub(crate) struct Enter;

impl<V, N, E> Play<Option<V>, View<N, E>> for Enter {
    ghost then = { Enters };
}

pub(crate) struct Leave;

impl<V, N, E> Play<Option<V>, View<N, E>> for Leave {
    ghost then = { Leaves };
}

pub(crate) struct Mark;

impl<V, N, E> Play<Option<V>, View<N, E>> for Mark {
    ghost then = { Marks };
}

pub(crate) struct Look;

impl<V, N, E> Play<Option<V>, View<N, E>> for Look {
    ghost then = { Looks };
}

pub(crate) struct Install;

impl<V, N, E> Play<Option<V>, View<N, E>> for Install {
    ghost then = { Installs };
}

pub(crate) struct Take;

impl<V: Kept> Play<Option<V>, View<V::Name, V::Entry>> for Take {
    ghost then = { Takes V.name V.list };
}

pub(crate) struct Give;

impl<V, N, E> Play<Option<V>, View<N, E>> for Give {
    ghost then = { Gives };
}

/// The list that a step notes. A store reads no list, so its proof picks it.
pub(crate) trait NotedList<E> {
    ghost use Rattle.std.specs.Prelude.{List};
    ghost use Rattle.port_cell.specs.declared.kept.Stamped.{Stamped};

    ghost told: { List (Stamped E) };
}

impl<E> NotedList<E> for Brand {
    ghost told = { [] };
}

pub(crate) struct Note<T> {
    marker: PhantomData<T>,
}

impl<V, N, E, T: NotedList<E>> Play<Option<V>, View<N, E>> for Note<T> {
    ghost then = { Notes T.told };
}

pub(crate) struct Deal;

impl<N, E> Split<View<N, E>> for Deal {
    ghost left = { with_one_made };

    ghost right = { next_view };
}

pub(crate) struct TakeIn;

impl<N, E> Join<View<N, E>> for TakeIn {
    ghost both = { with_joined };

    ghost spent = { spent_view };
}
