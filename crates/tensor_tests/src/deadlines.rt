//! Tests of deadlines. A clock of the tests' own shows a second more at each reading, so it is known
//! at which step a request is stopped, and how often the clock is read.

use crate::texts::request;
use crate::told::expect;
use expr_reader::read_request;
use std::alloc::Global;
use std::cell::Cell;
use std::io;
use std::process::Abort;
use std::sync::Wait;
use std::test::Fail;
use std::thread::Threads;
use std::time::{Clock, Duration};
use tensor_runner::{Allowance, Deadline, Limits, NoClock, eval_until};

/// A clock that shows a second more at each reading.
#[derive(Drop)]
struct Ticking {
    readings: Cell<u64>,
}

impl Clock for Ticking {
    fn monotonic(&self) -> io::Result<Duration> {
        let readings = self.readings.get();
        self.readings.set(readings.saturating_add(1));
        Ok(Duration::from_secs(readings))
    }

    fn since_1970(&self) -> io::Result<Duration> {
        self.monotonic()
    }
}

const INPUTS: &str = r#"{"a":{"dims":[3],"data":[1,2,3]}}"#;

/// An expression whose plan has two steps, and its value.
const TWO_STEPS: &str = r#"["neg",["sum","a",[0]]]"#;

const VALUE: [i64; 1] = [-6];

/// The seconds of a deadline, whether [`TWO_STEPS`] has a tensor by then, and how often the clock
/// was read: once for the begin, and once before each step that is evaluated or not.
const DEADLINES: &[(Option<u64>, bool, u64)] = &[
    (None, true, 0),
    (Some(0), false, 2),
    (Some(1), false, 2),
    (Some(2), false, 3),
    (Some(3), true, 3),
    (Some(u64::MAX), true, 3),
];

/// Asserts what [`TWO_STEPS`] has by a deadline of [`DEADLINES`].
fn ends_at<RT: Threads + Wait + Abort + Sync>(
    rt: &RT,
    alloc: Global,
    known: &(Option<u64>, bool, u64),
) -> Result<(), Fail> {
    let (seconds, has_tensor, readings) = *known;
    let text = request(alloc, 1, INPUTS, TWO_STEPS)?;
    let request = read_request(alloc, text.as_bytes())?;
    let clock = Ticking {
        readings: Cell::new(0),
    };
    let limits = Limits {
        workers: None,
        steps: None,
        bytes: None,
        seconds,
    };
    let allowance = Allowance::begin(limits, false, &clock);
    let found = eval_until(rt, alloc, &request, &allowance)?;
    let values: &[i64] = match &found {
        Some(tensor) => tensor.values(),
        None => &[],
    };
    let wanted: &[i64] = if has_tensor { &VALUE } else { &[] };
    let read = clock.readings.get();
    expect(rt, seconds, &(values, read), &(wanted, readings));
    Ok(())
}

#[test]
fn requests_end_at_a_deadline(rt: HostRuntime) -> Result<(), Fail> {
    for known in DEADLINES {
        ends_at(&rt, rt.alloc(), known)?;
    }
    Ok(())
}

#[test]
fn no_deadline_passes_by_no_clock(rt: HostRuntime) {
    let clock = NoClock;
    let deadline = Deadline::after(&clock, Some(0));
    expect(&rt, "no clock", &deadline.has_passed(), &false);
}
