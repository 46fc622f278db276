//! Laws of policies: they hold of the definitions alone.

ghost use Rattle.std.specs.Prelude.{◌≡◌, ℕ, Bool, true, false, List, length, count_by, nat_le, slice_index_or};
ghost use Rattle.tl_policy.specs.Need.{need_terms};
ghost use Rattle.tl_policy.specs.Satisfied.{is_satisfied};
ghost use Rattle.tl_policy.specs.Terms.{LogTerm, Terms, WitnessTerm};

/// More witnesses never undo it: what a set of them satisfies, each larger set does.
pub fn more_witnesses_satisfy()
    ensures { (set more : List Bool) (p : Terms)
        → ((place : ℕ) → slice_index_or set place false ≡ true → slice_index_or more place false ≡ true)
        → is_satisfied set p ≡ true → is_satisfied more p ≡ true }
{}

/// This many of given witnesses are one group of them all with that threshold: it is satisfied exactly if at least
/// that many of them are in the set.
pub fn need_is_a_policy()
    ensures { (count : ℕ) (logs : List LogTerm) (witnesses : List WitnessTerm) (set : List Bool)
        → length set ≡ length witnesses → is_satisfied set (need_terms count logs witnesses)
        ≡ nat_le count (count_by (λ there. there) set) }
{}
