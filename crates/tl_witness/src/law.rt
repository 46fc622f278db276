//! Laws of runs, chains and saved links, which hold of the definitions alone.

ghost use Rattle.std.specs.Prelude.{◌≡◌, ℕ, ◌+◌, ◌⊎◌, List, [], Some, slice_get, drop};
ghost use Rattle.tl_hash.specs.Bytes.{Bytes, Digest};
ghost use Rattle.tl_checkpoint.specs.Checkpoint.{Head};
ghost use Rattle.tl_proof.specs.Laws.{HasHashLength};
ghost use Rattle.tl_proof.specs.Collisions.{IsPrefix, Exhibits, audit_inputs};
ghost use Rattle.tl_proof.specs.Acceptance.{Step, Linked};
ghost use Rattle.tl_witness.specs.Book.{BookOutcome, IsLawful};
ghost use Rattle.tl_witness.specs.Chain.{IsChain};
ghost use Rattle.tl_witness.specs.ChainLine.{ChainLine, IsChainText, IsMalformedAt};
ghost use Rattle.tl_witness.specs.Cosigned.{CosignsTwice, GrewBy, IsHeadOf, IsSound};
ghost use Rattle.tl_witness.specs.Decide.{Outcome};
ghost use Rattle.tl_witness.specs.Open.{SavedChain, Trusted, OpensBook};
ghost use Rattle.tl_witness.specs.Runs.{IsBookRun, IsLaterBook, IsLaterChain, IsRun};
ghost use Rattle.tl_witness.specs.Witnessed.{Witnessed};

use tl_proof::laws::audit_law;

/// Whatever requests one origin gets, and whatever fails, its chain stays a chain that begins with what it was, and
/// the added links lead from there to its end. It computes nothing: its contract is the law.
pub fn chains_only_grow()
    ensures { (H : Digest) (one last : Witnessed) (outs : List Outcome)
        → IsChain H one.chain → IsRun H one outs last → IsLaterChain H one.chain last.chain }
{}

/// Whatever requests a book gets, and whatever fails, each origin keeps its position, verifiers and cosigner, and its
/// chain only grows. It computes nothing: its contract is the law.
pub fn books_only_grow()
    ensures { (H : Digest) (book last : List Witnessed) (outs : List BookOutcome)
        → IsLawful H book → IsBookRun H book outs last → IsLaterBook H book last }
{}

/// The links after any one of a chain are linked from it, and all of them from size 0 and the hash of no bytes. So an
/// audit can start anywhere. It computes nothing: its contract is the law.
pub fn chains_are_linked_from_each_step()
    ensures { (H : Digest) (chain : List Step) → IsChain H chain → Linked H 0 (H []) chain
        × ((place : ℕ) (step : Step) → slice_get chain place ≡ Some step
        → Linked H step.size step.root (drop (place + 1) chain)) }
{}

/// No bytes are saved links in two ways, or are saved links and have a malformed line. So `read_chain` returns the
/// links whose lines `write_chain_line` wrote. It computes nothing: its contract is the law.
pub fn saved_links_have_one_reading()
    ensures lines { (bytes : Bytes) (xs ys : List ChainLine)
        → IsChainText bytes xs → IsChainText bytes ys → xs ≡ ys }
    ensures place { (bytes : Bytes) (j k : ℕ)
        → IsMalformedAt bytes j → IsMalformedAt bytes k → j ≡ k }
    ensures apart { (bytes : Bytes) (xs : List ChainLine) (place : ℕ)
        → IsChainText bytes xs → ¬ (IsMalformedAt bytes place) }
{}

/// Every book that was opened is sound: each origin's links are a chain, and no origin is in it twice. It computes
/// nothing: its contract is the law.
pub fn opened_books_are_sound()
    ensures { (H : Digest) (trusts : List Trusted) (chains : List SavedChain)
        (book : List Witnessed) → OpensBook H trusts chains book → IsSound H book }
{}

/// Take two requests of a run of one book that were answered with 200 for the same origin, whatever requests and
/// faults came before, between and after. Each list of the earlier checkpoint is a prefix of each list of the later
/// one, or two different byte strings, which are named, have the same digest. It computes nothing: its contract is
/// the law.
pub fn cosigned_checkpoints_extend()
    ensures { (H : Digest) → ((message : Bytes) → HasHashLength (H message))
        → (first second : BookOutcome) (earlier later : Head)
        → CosignsTwice H first second earlier later
        → (old new : List Bytes) → IsHeadOf H old earlier → IsHeadOf H new later
        → (links : List Step) × GrewBy first.book_after second.book_after earlier.origin links
        × (IsPrefix old new
        ⊎ ((x : Bytes) × (y : Bytes) × Exhibits H x y (audit_inputs H old new links))) }
{
    audit_law();
}
