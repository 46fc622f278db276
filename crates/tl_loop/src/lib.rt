//! The state machine of a running log: it decides what the log does next, event by event.
//!
//! A log that runs takes entries in, publishes them in batches, reports what it published, and ends in good order
//! when its input ends, when it is stopped, or after a fault. All of that is decided here, without threads, clocks or
//! devices. The caller carries out each step, and passes an event for what came of it, or for what happened while the
//! log waited:
//!
//! ```rust
//! let mut publish_loop = PublishLoop::serving(256, false); // publish each 256 entries, and what there is in a pause
//! for _step in 0..u64::MAX {
//!     let event = match publish_loop.step() {
//!         Step::Wait => next_event(),
//!         Step::Take => Event::Done(take()),
//!         Step::Publish => publish(), // `Event::Done(0)`, or `Event::Failed` with the fault
//!         Step::End(outcome) => return outcome,
//!         step => carry_out(step),
//!     };
//!     publish_loop = publish_loop.after(event);
//! }
//! ```
//!
//! Whatever events come, only what is new is published, only what is published is reported, and the log is closed
//! only once all that was taken in is published and reported. After the first fault nothing more is done than closing
//! the listener and ending with that fault. `laws` states both.
#![tactic(auto)]

mod laws;
mod publish_loop;

pub use laws::{first_fault_ends_all, steps_come_in_order};
pub use publish_loop::{Doing, Event, PublishLoop, Step};
