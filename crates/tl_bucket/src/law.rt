//! What holds of a bucket, whatever its operators send and whatever happens to it.

ghost use Rattle.std.specs.Prelude.{◌≡◌, ◌≢◌, ◌⊎◌, ℕ, suc, ◌<◌, ◌≤◌, List, ◌++◌, length, All, Some, None, Option, Contains};
ghost use Rattle.tl_hash.specs.Bytes.{Bytes};
ghost use Rattle.tl_tile.specs.declared.resource.Resource.{Resource};
ghost use Rattle.tl_tile.specs.declared.resource.Resource.TheVariants as resource;
ghost use Rattle.tl_log.specs.Histories.{Prefix, Begins, last_of, note_if};
ghost use Rattle.tl_tile.specs.Needed.{needed_resources, needed_resources_since};
ghost use Rattle.tl_archive.specs.Complete.{text_of, HasAll, IsComplete};
ghost use Rattle.tl_bucket.specs.Commits.{Commit, IsBehind, IsCommit};
ghost use Rattle.tl_bucket.specs.Bucket.{Committed, IsCommitted, Request, put_checkpoint};
ghost use Rattle.tl_bucket.specs.Operators.{beginning, IsWhole, Leads, MaySend, Setting, TellsSize, World};
ghost use Rattle.tl_bucket.specs.Histories.{AreConsistent, HaveOneTag, NeverShrinks, IsCheckpointOf};

/// States that of any two checkpoints that operators ever sent, and so of any two that were ever shown, the entries
/// of one are a prefix of the other's, whatever the entity tags: no operator signs a fork.
pub fn operators_never_fork()
    ensures sent { (setting : Setting) (w : World) → Leads setting beginning w
        → (wanted other : Option Bytes) (p q : Prefix) → Contains w.sent (put_checkpoint wanted p)
        → Contains w.sent (put_checkpoint other q) → AreConsistent p.entries q.entries }
    ensures shown { (setting : Setting) (w : World) → Leads setting beginning w
        → (p q : Prefix) → Contains w.shown p → Contains w.shown q
        → AreConsistent p.entries q.entries }
{}

/// States that what is shown is never rolled back: the entries of each publication are a prefix of those of each
/// later one. Else two different notes that were shown have one entity tag.
pub fn shown_log_never_rolls_back()
    ensures { (setting : Setting) (w : World) → Leads setting beginning w
        → NeverShrinks w.shown ⊎ HaveOneTag setting.tag w.shown }
{}

/// States that each note of a log's checkpoint states its size, whoever signed it: so it may be sent.
pub fn checkpoints_tell_size()
    ensures { (origin : Bytes) (entries : List Bytes) (note : Bytes)
        → IsCheckpointOf origin entries note → TellsSize note (length entries) }
{}

/// States that some operator sent what was shown, that the checkpoint that is there is that of the last publication,
/// and that all that it needs is there. Each publication that was ever shown is whole then and at any later time: a
/// client that read its checkpoint finds the rest, however late.
pub fn shown_log_is_complete()
    ensures sent { (setting : Setting) (w : World) → Leads setting beginning w
        → (q : Prefix) → Contains w.shown q
        → (wanted : Option Bytes) × Contains w.sent (put_checkpoint wanted q) }
    ensures last { (setting : Setting) (w : World) → Leads setting beginning w
        → w.store.held resource.Checkpoint ≡ note_if (last_of w.shown) }
    ensures complete { (setting : Setting) (w : World) → Leads setting beginning w
        → IsComplete setting.digest w.shown w.store.held }
    ensures each { (setting : Setting) (w later : World) → Leads setting beginning w
        → Leads setting w later → All (IsWhole setting later.store) w.shown }
{}

/// States that a tile or bundle that is there keeps its bytes, whoever puts it again, and however late.
pub fn stored_bytes_stay()
    ensures { (setting : Setting) (w later : World) → Leads setting beginning w
        → Leads setting w later → (r : Resource) (bytes : Bytes) → r ≢ resource.Checkpoint
        → w.store.held r ≡ Some bytes → later.store.held r ≡ Some bytes }
{}

/// States that what a committed log needs has that log's bytes if it is there: an operator need only see that it is.
pub fn stored_bytes_are_right()
    ensures { (setting : Setting) (w : World) → Leads setting beginning w
        → (entries : List Bytes) (r : Resource) (bytes : Bytes) → IsCommitted w.store entries
        → Contains (needed_resources (length entries)) r → w.store.held r ≡ Some bytes
        → bytes ≡ text_of setting.digest r entries }
{}

/// States that a committed log is there whole once all is there that it needs and some shown log didn't need: an
/// operator puts only what is new.
pub fn new_resources_suffice()
    ensures { (setting : Setting) (w : World) → Leads setting beginning w
        → (p : Prefix) (entries : List Bytes) → Contains w.shown p → IsCommitted w.store entries
        → length p.entries ≤ length entries
        → ((r : Resource) → Contains (needed_resources_since (length p.entries) (length entries)) r
        → w.store.held r ≢ None)
        → HasAll setting.digest entries w.store.held }
{}

/// States that a commit that is there stays as it is.
pub fn commits_stay()
    ensures { (setting : Setting) (w later : World) → Leads setting w later
        → (n : ℕ) (batch : List Bytes) → w.store.commits n ≡ Some batch
        → later.store.commits n ≡ Some batch }
{}

/// States that before a commit that is there all are there, and that after the last there is none. So the last is
/// found by doubling a number and then halving.
pub fn commits_have_no_gap()
    ensures before { (setting : Setting) (w : World) → Leads setting beginning w
        → (m n : ℕ) (batch : List Bytes) → 0 < m → m ≤ n → w.store.commits n ≡ Some batch
        → (own : List Bytes) × (w.store.commits m ≡ Some own) }
    ensures last { (setting : Setting) (w : World) → Leads setting beginning w
        → (n : ℕ) × (entries : List Bytes) × Committed w.store n entries
        × ((m : ℕ) → n < m → w.store.commits m ≡ None) }
{}

/// States that the log after some commits is a prefix of the log after as many or more of them at any later time:
/// what is committed keeps its index. Of any two committed logs, then and later, one is a prefix of the other.
pub fn committed_logs_extend()
    ensures front { (setting : Setting) (w later : World) → Leads setting w later
        → (m n : ℕ) (a b : List Bytes) → m ≤ n → Committed w.store m a
        → Committed later.store n b → Begins a b }
    ensures either { (setting : Setting) (w later : World) → Leads setting w later
        → (a b : List Bytes) → IsCommitted w.store a → IsCommitted later.store b
        → AreConsistent a b }
{}

/// States that what may be sent may be sent later: what an operator acts on stays true, however late its request is.
pub fn leave_to_send_stays()
    ensures { (setting : Setting) (w later : World) → Leads setting beginning w
        → Leads setting w later → (request : Request) → MaySend setting w request
        → MaySend setting later request }
{}

/// States that whatever came before, and wherever an operator crashed, the log can go on: any entries can be
/// committed after the last commit, and all that is committed can be shown, if there is a note of it.
pub fn log_can_go_on()
    ensures commit { (setting : Setting) (w : World) → Leads setting beginning w
        → (n : ℕ) (entries batch : List Bytes) → Committed w.store n entries
        → w.store.commits (suc n) ≡ None
        → (later : World) × Leads setting w later
        × Committed later.store (suc n) (entries ++ batch) }
    ensures show { (setting : Setting) (w : World) → Leads setting beginning w
        → (n : ℕ) (q : Prefix) → Committed w.store n q.entries
        → w.store.commits (suc n) ≡ None → TellsSize q.note (length q.entries)
        → (later : World) × Leads setting w later × (last_of later.shown ≡ Some q) }
{}

/// States that bytes are those of one commit at most, and that one rest follows the first `count` entries.
pub fn commits_have_one_reading()
    ensures commit { (bytes : Bytes) (c d : Commit)
        → IsCommit bytes c → IsCommit bytes d → c ≡ d }
    ensures rest { (bytes : Bytes) (count : ℕ) (x y : Bytes)
        → IsBehind bytes count x → IsBehind bytes count y → x ≡ y }
{}
