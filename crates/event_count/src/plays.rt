//! The plays of the steps on the words of a count: what each tells the seat that makes it.
//! `specs/Plays.antt` defines them.
ghost use Rattle.event_count.specs.declared.view.Exchange.{Exchange};
ghost use Rattle.event_count.specs.declared.view.Card.{Card};
ghost use Rattle.event_count.specs.declared.view.View.{View};

use crate::kind::Kind;
use crate::view::View;
use atomic_table::Play;
use std::marker::PhantomData;

/// What a seat gains by an exchange of the state word that found the looked word.
pub trait Gains {
    // The relation between the seat's card before, the exchange, and the seat's view after.
    ghost gain: { Card → Exchange → View → Type 0 };
}

/// The play of an exchange of the state word, which succeeds if the state word is the looked word.
pub struct Exchanges<G> {
    marker: PhantomData<G>,
}

impl<G: Gains> Play<(), View> for Exchanges<G> {
    ghost use Rattle.event_count.specs.Plays.{exchanges};

    ghost then = { exchanges G.gain };
}

/// The play of a load of the state word by a new seat.
pub struct Arrives;

impl Play<(), View> for Arrives {
    ghost use Rattle.event_count.specs.Plays.{arrives};

    ghost then = { arrives };
}

/// The play of a load of the state word.
pub struct Looks<K> {
    marker: PhantomData<K>,
}

impl<K: Kind> Play<(), View> for Looks<K> {
    ghost use Rattle.event_count.specs.Plays.{looks};

    ghost then = { looks K.rowed };
}

/// The play of a prewait: the seat becomes a pre-waiter.
pub struct Prewaits;

impl Play<(), View> for Prewaits {
    ghost use Rattle.event_count.specs.Plays.{prewaits};

    ghost then = { prewaits };
}

/// What an exchange gains by which a pre-waiter takes a signal.
pub struct Consumes<K> {
    marker: PhantomData<K>,
}

impl<K: Kind> Gains for Consumes<K> {
    ghost use Rattle.event_count.specs.Plays.{consumes};

    ghost gain = { consumes K.rowed };
}

/// What an exchange gains by which a pre-waiter leaves.
pub struct Cancels;

impl Gains for Cancels {
    ghost use Rattle.event_count.specs.Plays.{cancels};

    ghost gain = { cancels };
}

/// What an exchange gains by which a pre-waiter gets a signal.
pub struct Signals;

impl Gains for Signals {
    ghost use Rattle.event_count.specs.Plays.{signals};

    ghost gain = { signals };
}

/// The play of a load of the looked top's next word.
pub struct Reads;

impl Play<(), View> for Reads {
    ghost use Rattle.event_count.specs.Plays.{reads};

    ghost then = { reads };
}

/// The play of a store of the seat's own next word.
pub struct Stores;

impl Play<(), View> for Stores {
    ghost use Rattle.event_count.specs.Plays.{stores};

    ghost then = { stores };
}

/// What an exchange gains by which a pre-waiter goes onto the stack.
pub struct Pushes<K> {
    marker: PhantomData<K>,
}

impl<K: Kind> Gains for Pushes<K> {
    ghost use Rattle.event_count.specs.Plays.{pushes};

    ghost gain = { pushes K.rowed };
}

/// What an exchange gains that pops the top.
pub struct Pops;

impl Gains for Pops {
    ghost use Rattle.event_count.specs.Plays.{pops};

    ghost gain = { pops };
}

/// The play of an unpark: the first owed seat gets its token.
pub struct Unparks;

impl Play<(), View> for Unparks {
    ghost use Rattle.event_count.specs.Plays.{unparks};

    ghost then = { unparks };
}

/// The play of a swap of the seat's own parker word, by which it takes its token.
pub struct Wakes;

impl Play<(), View> for Wakes {
    ghost use Rattle.event_count.specs.Plays.{wakes};

    ghost then = { wakes };
}

/// The play of a load of the first owed seat's next word.
pub struct Follows;

impl Play<(), View> for Follows {
    ghost use Rattle.event_count.specs.Plays.{follows};

    ghost then = { follows };
}

/// What an exchange gains that takes the whole stack.
pub struct TakesAll;

impl Gains for TakesAll {
    ghost use Rattle.event_count.specs.Plays.{takes_all};

    ghost gain = { takes_all };
}
