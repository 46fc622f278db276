//! A state with one line for each origin is lawful if the longer one was, and leads to the same heads.

ghost use Rattle.std.specs.Prelude.{◌≡◌, ◌≢◌, List, [], ◌∷◌};
ghost use Rattle.tl_hash.specs.Bytes.{Digest};
ghost use Rattle.tl_proof.specs.Acceptance.{Step};
ghost use Rattle.tl_witness.specs.Chain.{IsChain, first_head, last_head};
ghost use Rattle.tl_witness.specs.Open.{SavedChain};
ghost use Rattle.tl_logs.specs.State.{end_of, in_one_step, whole_step};

/// If steps are a chain, the one step from size 0 to where they lead is a chain, too. It computes nothing: its
/// contract is the law.
pub fn whole_steps_are_chains()
    ensures { (H : Digest) (steps : List Step) → IsChain H steps → steps ≢ []
        → IsChain H (whole_step (last_head (first_head H) steps) ∷ []) }
{}

/// The chain of that one step leads where the longer chain led. It computes nothing: its contract is the law.
pub fn whole_steps_lead_there()
    ensures { (H : Digest) (chain : SavedChain)
        → end_of H (in_one_step (end_of H chain)) ≡ end_of H chain }
{}
