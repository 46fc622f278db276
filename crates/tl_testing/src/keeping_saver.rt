//! A saver for tests that keeps what it saved, and fails when it is made to.

ghost use Rattle.std.specs.Prelude.{◌≡◌, ◌<◌, ◌-◌, ◌^◌, ◌⊎◌, IfOk, IsErr, string_bytes};
ghost use Rattle.tl_proof.specs.Acceptance.{step_of};

use std::alloc::{AllocError, Allocator, Global};
use tl_proof::Link;
use tl_witness::{SaveFault, Saver, write_chain_line};

/// A saver that keeps each link and its line, and fails if `fails` is set or allocation fails.
#[derive(Drop)]
pub struct KeepingSaver {
    alloc: Global,
    /// Whether each save fails.
    pub fails: bool,
    /// Whether the last save that failed did so because an allocation failed.
    pub lacks_memory: bool,
    /// The lines of the links that were saved.
    pub lines: String,
    failures: u64,
    saved: Vec<(String, Link<Global>)>,
}

impl KeepingSaver {
    /// Creates a saver that hasn't saved anything yet.
    pub fn new(alloc: Global) -> KeepingSaver {
        KeepingSaver {
            alloc,
            fails: false,
            lacks_memory: false,
            lines: String::new(alloc),
            failures: 0,
            saved: Vec::new(alloc),
        }
    }

    // Counts a failure, and returns it.
    fn fail(&mut self) -> Result<(), SaveFault>
        ensures failed { IsErr result }
        ensures counted { (self.old.failures < self.new.failures) ⊎ (self.old.failures ≡ 2 ^ 64 - 1) }
        ensures links { self.new.saved ≡ self.old.saved }
    {
        self.failures = self.failures.saturating_add(1);
        self.lacks_memory = !self.fails;
        Err(SaveFault)
    }
}

// Copies an origin and a link.
fn copied<A: Allocator>(
    alloc: Global,
    origin: &str,
    link: &Link<A>,
) -> Result<(String, Link<Global>), AllocError>
    ensures { IfOk result (λ kept. (string_bytes kept.0 ≡ origin.now) × (step_of kept.1 ≡ step_of link.now)) }
{
    Ok((
        String::from_str(alloc, origin)?,
        Link::copy_of(alloc, link)?,
    ))
}

impl Saver for KeepingSaver {
    ghost use Rattle.std.specs.Prelude.{map, string_bytes};
    ghost use Rattle.tl_proof.specs.Acceptance.{step_of};

    ghost saved = { λ s. record { failures = s.failures; links = map (λ p. (string_bytes p.0, step_of p.1)) s.saved.items } };

    fn save<B: Allocator>(&mut self, origin: &str, link: &Link<B>) -> Result<(), SaveFault> {
        let Ok(line) = write_chain_line(self.alloc, origin, link) else {
            return self.fail();
        };
        if self.fails {
            return self.fail();
        }
        let Ok(kept) = copied(self.alloc, origin, link) else {
            return self.fail();
        };
        if self.saved.reserve(1).is_err() || self.lines.push_str(line.as_str()).is_err() {
            return self.fail();
        }
        self.saved.push_reserved(kept);
        Ok(())
    }
}
