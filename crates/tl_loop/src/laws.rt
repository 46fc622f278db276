//! Laws of every running log, for every list of events. They are over the definitions.

ghost use Rattle.std.specs.Prelude.{List};
ghost use Rattle.tl_loop.specs.PublishLoop.{after, step_of};
ghost use Rattle.tl_loop.specs.Order.{Begins, EndsWith, IsRunning, MayDo, Owed, after_all, owed_all};
ghost use Rattle.tl_loop.specs.declared.publish_loop.Event.{Event};
ghost use Rattle.tl_loop.specs.declared.publish_loop.Event.TheVariants as event;
ghost use Rattle.tl_loop.specs.declared.publish_loop.PublishLoop.{PublishLoop};

/// For every list of events: only what is new is published, and only what is published is reported.
/// The log is closed, and ends well, only once all that was taken in is published and reported.
pub fn steps_come_in_order<F>()
    ensures { (h : PublishLoop F) (owed : Owed) → Begins h owed → (events : List (Event F))
        → MayDo (owed_all h events owed) (step_of (after_all h events).doing) }
{}

/// For every list of events after the first failure: the listener is closed, and the log ends with
/// that fault. Nothing more is taken, published or reported.
pub fn first_fault_ends_all<F>()
    ensures { (h : PublishLoop F) (fault : F) → IsRunning h.doing → (events : List (Event F))
        → EndsWith fault (step_of (after_all (after h (event.Failed fault)) events).doing) }
{}
