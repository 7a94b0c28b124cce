// The dock.
ghost use Rattle.std.specs.Prelude.{◌≡◌, ◌≢◌, ◌+◌, ◌++◌, ◌∷◌, [], true, false, All, IfOk};
ghost use Rattle.mx_dock.specs.Journal.{IsPrefix, since, entries_of};
ghost use Rattle.mx_dock.specs.Dock.{own, given_back, number, seen, added, holds, opening, place, made, view_of, IsFirstOf, IsBerthOf, IsSameBerth, HasNumber, HasEach};

use crate::berths::Berth;
use crate::journals::Journaled;
use crate::passes::{DockQueue, put_first, take_last};
use crate::steps::{BerthMade, Compared, Joined, Parted, Placeholder, Put, Taken};
use crate::waiting::Waiting;
use std::alloc::{AllocError, Global};
use std::sync::Wait;
use std::{mem, thread};

/// One value, which is in the dock, or out with one of its berths.
///
/// Threads share the dock, and each takes the value and puts it back through a berth of its own. What is taken is the
/// one value there is, with all that was put back into it; no call copies it. A dock may be shared wherever its value may
/// be sent. A call that waits for the value looks again a few times, and then sleeps until one is put back. Its clauses
/// say what holds when it returns; nothing says that it does, nor in which order waiting berths come to their turn. After
/// more than 2^62 puts each such call waits for good.
#[derive(Drop)]
pub struct Dock<T: Journaled> {
    queue: DockQueue<T>,
    pub(crate) waiting: Waiting,
}

impl<T: Journaled + Drop> Dock<T> {
    /// A dock with the value in it, and its first berth, which has the number 1 and has seen the value's journal.
    ///
    /// No memory left is the one error; then the value is dropped. The first put may have to be tried again, which is why
    /// it asks for leave to wait, though no other thread is in its way.
    pub fn open<R: Wait>(rt: &R, alloc: Global, value: T) -> Result<(Dock<T>, Berth<T>), AllocError>
        ensures mine { IfOk result (λ d. IsBerthOf d.0 d.1) }
        ensures idle { IfOk result (λ d. holds d.1 ≡ false) }
        ensures number { IfOk result (λ d. number d.1 ≡ 1) }
        ensures made { IfOk result (λ d. made d.1 ≡ 1) }
        ensures opening { IfOk result (λ d. opening d.1 ≡ T.journal value) }
        ensures place { IfOk result (λ d. place d.1 ≡ T.place value) }
        ensures seen { IfOk result (λ d. seen d.1 ≡ T.journal value) }
        ensures added { IfOk result (λ d. added d.1 ≡ []) }
    {
        let (queue, mut pass) = DockQueue::<T>::ruled(alloc, 1)?;
        put_first(rt, &queue, &mut pass, value);
        let waiting = Waiting::new();
        Ok((Dock { queue, waiting }, Berth { pass }))
    }

    /// The value, once all berths are given back.
    ///
    /// Its journal is the one at the opening, and then entries that each have the number of a berth. The entries of a
    /// number are just those that its berth added, each once and in their order. What each owner has seen is a beginning
    /// of the journal, and all berths have the same opening. It asks for the first berth, after every other one that was
    /// made was given back to it: that is how no entry can be missed. It takes no memory. It waits until the value is in,
    /// and so for good where the value is out with the first berth.
    pub fn close<R: Wait>(self, rt: &R, first: Berth<T>) -> T
        requires first { IsFirstOf self first }
        requires number { number first ≡ 1 }
        requires all { HasEach (made first) (own first ∷ given_back first) }
        ensures place { T.place result ≡ place first }
        ensures opening { IsPrefix (opening first) (T.journal result) }
        ensures same_opening { All (λ b. b.opening ≡ opening first) (own first ∷ given_back first) }
        ensures numbered { All (λ e. HasNumber (own first ∷ given_back first) (T.caller e)) (since (opening first) (T.journal result)) }
        ensures added { All (λ b. entries_of T.caller b.number (since (opening first) (T.journal result)) ≡ b.added) (own first ∷ given_back first) }
        ensures seen { All (λ b. IsPrefix b.seen (T.journal result)) (own first ∷ given_back first) }
    {
        let Dock { queue, waiting } = self;
        let mut pass = first.pass;
        take_last(rt, &queue, &waiting, &mut pass)
    }
}

impl<T: Journaled> Dock<T> {
    /// The next berth, with the next number. Its owner has seen what the first berth's owner has.
    ///
    /// It asks for the first berth, without the value. It takes no memory and doesn't wait.
    pub fn berth(&self, first: &mut Berth<T>) -> Berth<T>
        requires mine { IsBerthOf self.now first.old }
        requires first { number first.old ≡ 1 }
        requires idle { holds first.old ≡ false }
        ensures mine { IsBerthOf self.now first.new }
        ensures counted { made first.new ≡ made first.old + 1 }
        ensures number { number first.new ≡ 1 }
        ensures idle { holds first.new ≡ false }
        ensures opening { opening first.new ≡ opening first.old }
        ensures place { place first.new ≡ place first.old }
        ensures seen { seen first.new ≡ seen first.old }
        ensures added { added first.new ≡ added first.old }
        ensures new { IsBerthOf self.now result }
        ensures new_idle { holds result ≡ false }
        ensures new_number { number result ≡ made first.new }
        ensures new_opening { opening result ≡ opening first.new }
        ensures new_place { place result ≡ place first.new }
        ensures new_seen { seen result ≡ seen first.new }
        ensures new_added { added result ≡ [] }
    {
        let pass = self.queue.another::<BerthMade>(&mut first.pass);
        Berth { pass }
    }

    /// The value. Its journal begins with all that the berth's owner had seen, and the owner has then seen all of it.
    ///
    /// It also begins with the journal at the opening. Of the entries behind that one, those that have the berth's number
    /// are just those that the berth added, each once and in their order.
    ///
    /// It asks for a berth of this dock that the value is not out with. It takes no memory. It waits until the value is
    /// in; that it ever is depends on who has it.
    pub fn take<R: Wait>(&self, rt: &R, berth: &mut Berth<T>) -> T
        requires mine { IsBerthOf self.now berth.old }
        requires idle { holds berth.old ≡ false }
        ensures mine { IsBerthOf self.now berth.new }
        ensures same { IsSameBerth berth.old berth.new }
        ensures holds { holds berth.new ≡ true }
        ensures place { T.place result ≡ place berth.new }
        ensures seen { seen berth.new ≡ T.journal result }
        ensures later { IsPrefix (seen berth.old) (T.journal result) }
        ensures added { added berth.new ≡ added berth.old }
        // What came through this berth is all there, and nothing else has its number.
        ensures begins { IsPrefix (opening berth.new) (T.journal result) }
        ensures own { entries_of T.caller (number berth.new) (since (opening berth.new) (T.journal result)) ≡ added berth.new }
    {
        let mut waiter = self.waiting.begin();
        for _ in rt.forever() {
            waiter.before_look();
            if let Some(value) = self.queue.try_pop_as::<Taken<T>>(&mut berth.pass) {
                waiter.end();
                return value;
            }
            waiter.pause(rt);
        }
        unreachable!()
    }

    /// Puts the value back. The berth counts the entries that are new in it among those that it added.
    ///
    /// It asks for the berth that the value is out with, and for a value of the same place whose journal is the one that
    /// was taken and then entries of the berth's own number. It is never refused and takes no memory. It may wait, though
    /// the value's place in the dock is free.
    pub fn put<R: Wait>(&self, rt: &R, berth: &mut Berth<T>, value: T)
        requires mine { IsBerthOf self.now berth.old }
        requires holds { holds berth.old ≡ true }
        requires place { T.place value ≡ place berth.old }
        requires longer { IsPrefix (seen berth.old) (T.journal value) }
        requires own { All (λ e. T.caller e ≡ number berth.old) (since (seen berth.old) (T.journal value)) }
        ensures mine { IsBerthOf self.now berth.new }
        ensures same { IsSameBerth berth.old berth.new }
        ensures idle { holds berth.new ≡ false }
        ensures seen { seen berth.new ≡ T.journal value }
        ensures added { added berth.new ≡ added berth.old ++ since (seen berth.old) (T.journal value) }
    {
        let mut left = value;
        for _ in rt.forever() {
            match self.queue.try_push_as::<Put<T>>(&mut berth.pass, left) {
                Ok(()) => {
                    self.waiting.wake_one(&berth.pass);
                    return;
                }
                Err(back) => left = back,
            }
            thread::yield_now();
        }
        unreachable!()
    }

    /// The first of the two owners has then seen all that both had seen. The value stays as it was, and so does what the
    /// second one has seen. It shows that two berths of a dock have different numbers.
    ///
    /// It asks for two berths of this dock that the value is not out with. It takes no memory. It waits until the value
    /// is in.
    pub fn meet<R: Wait>(&self, rt: &R, first: &mut Berth<T>, second: &mut Berth<T>)
        requires first { IsBerthOf self.now first.old }
        requires first_idle { holds first.old ≡ false }
        requires second { IsBerthOf self.now second.old }
        requires second_idle { holds second.old ≡ false }
        ensures first { IsBerthOf self.now first.new }
        ensures first_same { IsSameBerth first.old first.new }
        ensures first_idle { holds first.new ≡ false }
        ensures first_seen { IsPrefix (seen first.old) (seen first.new) }
        ensures first_told { IsPrefix (seen second.old) (seen first.new) }
        ensures first_added { added first.new ≡ added first.old }
        ensures second { IsBerthOf self.now second.new }
        ensures second_same { IsSameBerth second.old second.new }
        ensures second_idle { holds second.new ≡ false }
        ensures second_seen { seen second.new ≡ seen second.old }
        ensures second_added { added second.new ≡ added second.old }
        ensures apart { number second.new ≢ number first.new }
    {
        let value = self.take(rt, first);
        self.compare(first, second);
        self.put(rt, first, value);
    }

    /// Gives a berth back. The first berth then tells what that one added and what its owner has seen.
    ///
    /// It asks for two berths of this dock that the value is not out with. The first one may have others that were given
    /// back to it. A berth to which one was given back can do no more than get others back and close the dock. It takes no
    /// memory and doesn't wait.
    pub fn give_back(&self, first: &mut Berth<T>, other: Berth<T>)
        requires first { IsFirstOf self.now first.old }
        requires first_idle { holds first.old ≡ false }
        requires other { IsBerthOf self.now other }
        requires other_idle { holds other ≡ false }
        ensures first { IsFirstOf self.now first.new }
        ensures own { own first.new ≡ own first.old }
        ensures idle { holds first.new ≡ false }
        ensures given { given_back first.new ≡ given_back first.old ++ own other ∷ [] }
    {
        self.queue.absorb::<Joined>(&mut first.pass, other.pass);
    }

    // The owner that the value is out with has seen all that the other one has.
    fn compare(&self, first: &mut Berth<T>, second: &mut Berth<T>)
        requires first { IsBerthOf self.now first.old }
        requires first_holds { holds first.old ≡ true }
        requires second { IsBerthOf self.now second.old }
        requires second_idle { holds second.old ≡ false }
        ensures first { IsBerthOf self.now first.new }
        ensures first_same { view_of first.new ≡ view_of first.old }
        ensures second { IsBerthOf self.now second.new }
        ensures second_same { view_of second.new ≡ view_of second.old }
        ensures told { IsPrefix (seen second.old) (seen first.old) }
        ensures apart { number second.old ≢ number first.old }
    {
        let placeholder = self.queue.another::<Placeholder>(&mut first.pass);
        let other = mem::replace(&mut second.pass, placeholder);
        self.queue.absorb::<Joined>(&mut first.pass, other);
        self.queue.learn_as::<Compared>(&mut first.pass);
        second.pass = self.queue.another::<Parted>(&mut first.pass);
    }
}
