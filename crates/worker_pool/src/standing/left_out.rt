//! Tokens of workers whose threads could not be started. Only this file makes a `LeftOut`, and only
//! after such a start.
ghost use Rattle.std.specs.Prelude.{◌≡◌, IfSome};

use std::sync::{Mutex, Wait};
use std::thread::SpawnError;

/// Shows that the thread of the worker with this number could not be started.
#[derive(Drop)]
pub(crate) struct LeftOut {
    number: u64,
}

/// Where the opener leaves the token of a worker for that worker.
#[derive(Drop)]
pub(crate) struct LeftOutBox {
    last: Mutex<Option<LeftOut>>,
}

impl LeftOutBox {
    /// Returns an empty box.
    pub(crate) fn new() -> LeftOutBox {
        LeftOutBox {
            last: Mutex::new(None),
        }
    }

    /// Leaves the token of the worker `number`, whose thread could not be started.
    pub(crate) fn leave<R: Wait, F>(&self, rt: &R, number: u64, refused: &SpawnError<F>) {
        let _ = refused;
        *self.last.lock(rt) = Some(LeftOut { number });
    }

    /// Takes the token of the worker `number`, if it is here.
    pub(crate) fn take<R: Wait>(&self, rt: &R, number: u64) -> Option<LeftOut>
        ensures { IfSome result (λ left_out. left_out.number ≡ number) }
    {
        let mut last = self.last.lock(rt);
        match last.take() {
            Some(left_out) if left_out.number == number => Some(left_out),
            other => {
                *last = other;
                None
            }
        }
    }
}
