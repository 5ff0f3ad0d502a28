//! Facts about the event model alone. Each function does nothing, and its contract is the fact. The
//! specs have the facts, and callers in event_count, waking_rows and worker_pool use them.

ghost use Rattle.event_word.specs.Balance.{RunsBalance};
ghost use Rattle.event_word.specs.Frame.{EventsLeaveAlone};
ghost use Rattle.event_word.specs.Played.{PlaysAreRuns};
ghost use Rattle.event_word.specs.Present.{RunsStayAwakeByPresent};
ghost use Rattle.event_word.specs.Runs.{RunsAreLawful};
ghost use Rattle.event_word.specs.Shown.{WordFollowsWorld};
ghost use Rattle.event_word.specs.Waking.{RunsStayAwake, RunsWakeAll};

/// Every list of possible events leads from an opening World to a lawful one.
pub fn runs_are_lawful()
    ensures { RunsAreLawful }
{}

/// Whatever list of events is played on a World, the possible ones among them lead to the World
/// that `play` leaves. Played on an opening World they leave a lawful one. So each law about lists
/// of possible events is a law about `World::play` too.
pub fn plays_are_runs()
    ensures { PlaysAreRuns }
{}

/// An event changes nothing that belongs to another actor. It may only give a seat its token.
pub fn events_leave_others_alone()
    ensures { EventsLeaveAlone }
{}

/// The `after_` functions follow the events: the fields after a step are the fields of the World
/// after its event.
pub fn word_follows_world()
    ensures { WordFollowsWorld }
{}

/// In every run from an opening World, a seat's pushes, pops, unparks and wakes follow one another.
pub fn runs_balance()
    ensures { RunsBalance }
{}

/// Before a stop each row with jobs has support: some actor is to notify, runs, is about to look at
/// the row, or is being woken. So all rows are empty whenever every worker is parked and no actor
/// is to notify.
pub fn runs_stay_awake()
    ensures { RunsStayAwake }
{}

/// `runs_stay_awake` if some actors never act, for example the workers of a pool whose start was
/// refused. At least one worker has to be present. Then the support is by a present actor, and only
/// the present workers have to be parked. Without this, an absent worker counts as running for
/// good, and would support every row.
pub fn runs_stay_awake_by_present()
    ensures { RunsStayAwakeByPresent }
{}

/// Once all were notified of a stop, the stack is empty. A sleeper is owed its token or has it, and
/// has it once no actor owes a token.
pub fn runs_wake_all()
    ensures { RunsWakeAll }
{}
