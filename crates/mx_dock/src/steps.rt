// The rule of a dock's queue, and what each step at the queue says. No value of these types is ever made.
ghost use Rattle.mx_dock.specs.Rule.{Docked, first_view, spent, counted, fresh, both, without_joined, parted, Takes, Puts, Opens, Closes, Meets};

use crate::journals::Journaled;
use crate::views::PassView;
use crossbeam_queue::protocol::{Join, Lesson, Outcome, Protocol, Split};
use std::marker::PhantomData;

/// The rule: what the queue holds agrees with what its passes know.
pub struct DockRule<T> {
    of: PhantomData<T>,
}

impl<T: Journaled> Protocol<T, PassView<T::Entry>> for DockRule<T> {
    ghost holds = { Docked T.journal T.caller T.place };

    ghost first = { first_view };
}

/// The first put, which opens the dock.
pub struct Opened<T> {
    of: PhantomData<T>,
}

impl<T: Journaled> Outcome<T, PassView<T::Entry>> for Opened<T> {
    ghost then = { Opens T.journal T.place };
}

/// A take.
pub struct Taken<T> {
    of: PhantomData<T>,
}

impl<T: Journaled> Outcome<T, PassView<T::Entry>> for Taken<T> {
    ghost then = { Takes T.journal T.caller T.place };
}

/// A put.
pub struct Put<T> {
    of: PhantomData<T>,
}

impl<T: Journaled> Outcome<T, PassView<T::Entry>> for Put<T> {
    ghost then = { Puts T.journal };
}

/// The last take, by the first berth, which closes the dock.
pub struct Closed<T> {
    of: PhantomData<T>,
}

impl<T: Journaled> Outcome<T, PassView<T::Entry>> for Closed<T> {
    ghost then = { Closes T.journal T.caller T.place };
}

/// The first berth makes another one.
pub struct BerthMade;

impl<E> Split<PassView<E>> for BerthMade {
    ghost left = { counted };

    ghost right = { fresh };
}

/// A berth is joined to another pass.
pub struct Joined;

impl<E> Join<PassView<E>> for Joined {
    ghost both = { both };

    ghost spent = { spent };
}

/// The one berth that was joined to a pass gets a pass of its own again.
pub struct Parted;

impl<E> Split<PassView<E>> for Parted {
    ghost left = { without_joined };

    ghost right = { parted };
}

/// A pass that has no berth, for the time in which a berth is joined to another pass.
pub struct Placeholder;

impl<E> Split<PassView<E>> for Placeholder {
    ghost left = { λ v. v };

    ghost right = { λ v. spent };
}

/// What the pass that the value is out with learns of the berths that are joined to it.
pub struct Compared;

impl<T, E> Lesson<T, PassView<E>> for Compared {
    ghost fact = { Meets };
}
