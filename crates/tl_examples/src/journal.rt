//! A saver that keeps the links of a witness in memory. One that lasts would write their lines to a file.

ghost use Rattle.std.specs.Prelude.{◌≡◌, ◌<◌, ◌-◌, ◌^◌, ◌⊎◌, IfOk, IsErr, string_bytes};
ghost use Rattle.tl_proof.specs.Acceptance.{step_of};

use std::alloc::{AllocError, Allocator, Global};
use tl_proof::Link;
use tl_witness::{SaveFault, Saver};

/// The links that were saved, and how often saving failed.
#[derive(Drop)]
pub struct Journal {
    alloc: Global,
    failures: u64,
    links: Vec<(String, Link<Global>)>,
}

impl Journal {
    /// Creates an empty journal.
    pub fn new(alloc: Global) -> Journal {
        Journal {
            alloc,
            failures: 0,
            links: Vec::new(alloc),
        }
    }

    /// Returns how many links were saved.
    pub fn count(&self) -> usize {
        self.links.len()
    }

    // Counts a failure, and returns it.
    fn fail(&mut self) -> Result<(), SaveFault>
        ensures failed { IsErr result }
        ensures counted { (self.old.failures < self.new.failures) ⊎ (self.old.failures ≡ 2 ^ 64 - 1) }
        ensures links { self.new.links ≡ self.old.links }
    {
        self.failures = self.failures.saturating_add(1);
        Err(SaveFault)
    }
}

// Copies an origin and a link.
fn copied<A: Allocator>(
    alloc: Global,
    origin: &str,
    link: &Link<A>,
) -> Result<(String, Link<Global>), AllocError>
    ensures { IfOk result (λ kept. (string_bytes kept.0 ≡ origin.now) × (step_of kept.1 ≡ step_of link.now)) }
{
    Ok((
        String::from_str(alloc, origin)?,
        Link::copy_of(alloc, link)?,
    ))
}

impl Saver for Journal {
    ghost use Rattle.std.specs.Prelude.{map, string_bytes};
    ghost use Rattle.tl_proof.specs.Acceptance.{step_of};

    ghost saved = { λ s. record { failures = s.failures; links = map (λ p. (string_bytes p.0, step_of p.1)) s.links.items } };

    fn save<A: Allocator>(&mut self, origin: &str, link: &Link<A>) -> Result<(), SaveFault> {
        let Ok(kept) = copied(self.alloc, origin, link) else {
            return self.fail();
        };
        if self.links.push(kept).is_err() {
            return self.fail();
        }
        Ok(())
    }
}
