//! The plays of a table of rows: what each step tells the seat that makes it. `specs/Plays.antt`
//! defines them, and the proofs of `steps.rt` rest on them.
ghost use Rattle.std.specs.Prelude.{Option, ℕ};

use crate::slot_rows::contents::{Contents, Known};
use crate::slot_rows::view::View;
use atomic_table::Play;
use std::marker::{Brand, PhantomData};

/// How a claim that succeeds moves the front position.
pub trait Shift {
    ghost shift: { ℕ → ℕ };
}

/// A claim at the back does not move the front.
pub struct Stays;

impl Shift for Stays {
    ghost shift = { λ front. front };
}

/// A push at the front moves the front to the next position.
pub struct MovesUp;

impl Shift for MovesUp {
    ghost use Rattle.run_queue.specs.Positions.{position_after};

    ghost shift = { position_after };
}

/// A pop at the front moves the front to the position before.
pub struct MovesDown;

impl Shift for MovesDown {
    ghost use Rattle.run_queue.specs.Positions.{position_before};

    ghost shift = { position_before };
}

/// The play of a claim of an empty element.
pub struct ClaimsIn<M> {
    of: PhantomData<M>,
}

impl<J, M: Shift> Play<Option<J>, View<J>> for ClaimsIn<M> {
    ghost use Rattle.run_queue.specs.Plays.{claims_in};

    ghost then = { claims_in M.shift };
}

/// The play of raising the length of a busy element's row.
pub struct Raises;

impl<J> Play<Option<J>, View<J>> for Raises {
    ghost use Rattle.run_queue.specs.Plays.{raises};

    ghost then = { raises };
}

/// The play of making a busy element ready, with the job that the seat has for it.
pub struct MakesReady;

impl<J> Play<Option<J>, View<J>> for MakesReady {
    ghost use Rattle.run_queue.specs.Plays.{makes_ready};

    ghost then = { makes_ready };
}

/// The play of a claim of a ready element.
pub struct ClaimsOut<M, F, C> {
    of: PhantomData<(M, F, C)>,
}

impl<J, M: Shift, F: Contents<J>, C: Known<J>> Play<Option<J>, View<J>> for ClaimsOut<M, F, C> {
    ghost use Rattle.run_queue.specs.Plays.{claims_out};

    ghost then = { claims_out C.known F.counted M.shift };
}

/// The play of making a busy element empty.
pub struct MakesEmpty;

impl<J> Play<Option<J>, View<J>> for MakesEmpty {
    ghost use Rattle.run_queue.specs.Plays.{makes_empty};

    ghost then = { makes_empty };
}

/// The play of lowering the length of a row from which the seat took a job.
pub struct Lowers;

impl<J> Play<Option<J>, View<J>> for Lowers {
    ghost use Rattle.run_queue.specs.Plays.{lowers};

    ghost then = { lowers };
}

/// How many seats were made with the rows of a look. This bounds the length that the look finds.
pub trait SeatCount {
    ghost seats: { ℕ };
}

impl SeatCount for Brand {
    ghost seats = { 0 };
}

/// The play of a look at the length of a row.
pub struct Looks<C> {
    of: PhantomData<C>,
}

impl<J, C: SeatCount> Play<Option<J>, View<J>> for Looks<C> {
    ghost use Rattle.run_queue.specs.Plays.{looks};

    ghost then = { looks C.seats };
}

/// The play of a new seat, which has no account.
pub struct Enters;

impl<J> Play<Option<J>, View<J>> for Enters {
    ghost use Rattle.run_queue.specs.Plays.{enters};

    ghost then = { enters };
}
