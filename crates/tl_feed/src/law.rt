//! An honest witness accepts what it is asked.

ghost use Rattle.std.specs.Prelude.{ℕ, List, take};
ghost use Rattle.sha2.specs.Sha256.{sha256};
ghost use Rattle.tl_feed.specs.Growing.{IsGrowthFrom, IsLogOf};
ghost use Rattle.tl_hash.specs.Bytes.{Bytes};
ghost use Rattle.tl_hash.specs.Tree.{tree_hash};
ghost use Rattle.tl_hash.specs.declared.head.Head.{Head};
ghost use Rattle.tl_proof.specs.Acceptance.{AcceptsConsistency};

use tl_client::ResourceSource;

/// States that a witness with the root of a log's first `old` entries accepts the proof that it is asked with, made
/// over tiles of this source (RFC 6962, section 2.1.2). It computes nothing: its contract is the law.
pub fn honest_growth_is_accepted<S: ResourceSource>(_source: &S)
    ensures { (head : Head) (old : ℕ) (proof entries : List Bytes)
        → IsGrowthFrom (S.may_answer _source.now) head old proof
        → IsLogOf (S.may_answer _source.now) head entries
        → AcceptsConsistency sha256 proof head.size head.root
        old (tree_hash sha256 (take old entries)) }
{}
