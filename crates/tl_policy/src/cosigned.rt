//! Which witnesses of a policy cosigned a text.

ghost use Rattle.std.specs.Prelude.{◌≡◌, IfOk};
ghost use Rattle.tl_checkpoint.specs.Cosignature.{ChecksCosignature};
ghost use Rattle.tl_key.specs.NoteKey.{verifier_key};
ghost use Rattle.tl_policy.specs.Cosigned.{AreTimes, IsFirstTime};
ghost use Rattle.tl_policy.specs.Terms.{terms_of};

use crate::policy::Policy;
use std::alloc::{AllocError, Allocator, Global};
use tl_checkpoint::check_cosignature;
use tl_key::CosignerVerifier;
use tl_note::{SigView, Verifier};

// The time of a line, if it is a cosignature by a public key, that of the verifier.
fn time_by<A: Allocator + Copy>(
    alloc: A,
    text: &str,
    line: &SigView<'_>,
    _public: &CosignerVerifier<Global>,
    verifier: &dyn Verifier,
) -> Result<Option<u64>, AllocError>
    requires { key verifier.now ≡ verifier_key _public.now }
    ensures { IfOk result (ChecksCosignature text.now (verifier_key _public.now) line.now) }
{
    check_cosignature(alloc, text, line, verifier)
}

/// Returns the time of a line, if it is a witness's cosignature of this text by this key (C2SP tlog-cosignature). It
/// fails only if memory runs out.
pub fn cosigned_at<A: Allocator + Copy>(
    alloc: A,
    text: &str,
    line: &SigView<'_>,
    key: &CosignerVerifier<Global>,
) -> Result<Option<u64>, AllocError>
    ensures { IfOk result (ChecksCosignature text.now (verifier_key key.now) line.now) }
{
    time_by(alloc, text, line, key, key)
}

// The time of the first cosignature by a key.
fn first_time<A: Allocator + Copy>(
    alloc: A,
    text: &str,
    lines: &[SigView<'_>],
    key: &CosignerVerifier<Global>,
) -> Result<Option<u64>, AllocError>
    ensures { IfOk result (IsFirstTime text.now key.now lines.now) }
{
    let [line, rest @ ..] = lines else {
        return Ok(None);
    };
    if let Some(time) = cosigned_at(alloc, text, line, key)? {
        return Ok(Some(time));
    }
    first_time(alloc, text, rest, key)
}

impl<'t, A: Allocator + Copy> Policy<'t, A> {
    /// The time of each witness's first cosignature of a checkpoint's text among these lines, or none if no line is
    /// one (C2SP tlog-cosignature). It fails only if memory runs out.
    pub fn cosigned_by(
        &self,
        alloc: A,
        text: &str,
        lines: &[SigView<'_>],
    ) -> Result<Vec<Option<u64>, A>, AllocError>
        ensures { IfOk result (λ times.
            AreTimes text.now lines.now (terms_of self.now).witnesses times.items) }
    {
        let mut times = Vec::new(alloc);
        for witness in self.witnesses.as_slice() {
            times.push(first_time(alloc, text, lines, &witness.key)?)?;
        }
        Ok(times)
    }
}
