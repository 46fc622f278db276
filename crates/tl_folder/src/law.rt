//! What a crash leaves of files, whatever was there before. These laws hold of the definitions alone; the contracts
//! of the functions that make the calls say which calls they made.

ghost use Rattle.std.specs.Prelude.{◌≡◌, ◌≢◌, ◌≤◌, ◌⊎◌, ℕ, List, ◌++◌, length, take, Option, Some, Contains};
ghost use Rattle.std.specs.Path.{path_parent};
ghost use Rattle.tl_folder.specs.Step.{Path, Bytes};
ghost use Rattle.tl_folder.specs.FileCalls.{Call, Begins, done};
ghost use Rattle.tl_folder.specs.Posix.{Disk, Becomes, MayBe, MayLeave, folder_of};
ghost use Rattle.tl_folder.specs.Settling.{Move, AreCovered, IsStaging, IsAside, settling, replacing};
ghost use Rattle.tl_folder.specs.Lines.{opening, appending};
ghost use Rattle.tl_folder.specs.Adding.{IsAdding};
ghost use Rattle.tl_folder.specs.Laws.{AreApart, HasBytes, IsAtRest, IsElsewhere, LeavesFront, bytes_there};

/// A file that was staged has the bytes that were staged. It computes nothing: its contract is the law.
pub fn staged_files_have_their_bytes()
    ensures { (disk now : Disk) (path : Path) (bytes : Bytes) (calls : List Call)
        → IsStaging path bytes calls → Becomes disk calls now → HasBytes (now path) bytes }
{}

/// Staging a file changes no other path, whatever its outcome. It computes nothing: its contract is the law.
pub fn staging_spares_other_files()
    ensures { (disk now : Disk) (path other : Path) (bytes : Bytes) (calls : List Call)
        → other ≢ path → IsAside path bytes calls → Becomes disk calls now
        → now other ≡ disk other }
{}

/// Once files are settled, each is at rest in its place with its new bytes. It computes nothing: its contract is the
/// law.
pub fn settled_files_are_at_rest()
    ensures { (disk now : Disk) (moves : List Move) (root : Path) (folders : List Path) (move : Move)
        (folder : Path) (bytes : Bytes) → AreApart moves → AreCovered root folders moves
        → Contains moves move → path_parent move.1 ≡ Some folder → HasBytes (disk move.0) bytes
        → Becomes disk (done (settling moves folders)) now → IsAtRest (now move.1) bytes }
{}

/// At each moment of a settling, and after one that failed, a crash leaves in each place what it might have left
/// before, or the new bytes. It computes nothing: its contract is the law.
pub fn settling_tears_no_file()
    ensures { (disk : Disk) (moves : List Move) (folders : List Path) (calls : List Call) (move : Move)
        (bytes : Bytes) (left : Option Bytes) → AreApart moves → Contains moves move
        → HasBytes (disk move.0) bytes → Begins (settling moves folders) calls
        → MayLeave disk calls move.1 left → MayBe (disk move.1) left ⊎ (left ≡ Some bytes) }
{}

/// At each moment of a settling, and after one, a crash leaves at every other path what it might have left before. It
/// computes nothing: its contract is the law.
pub fn settling_spares_other_files()
    ensures { (disk : Disk) (moves : List Move) (folders : List Path) (calls : List Call) (other : Path)
        (left : Option Bytes) → IsElsewhere other moves → Begins (settling moves folders) calls
        → MayLeave disk calls other left → MayBe (disk other) left }
{}

/// Once a file is replaced, it is at rest with its new bytes. It computes nothing: its contract is the law.
pub fn replaced_files_are_at_rest()
    ensures { (disk now : Disk) (aside path folder : Path) (bytes : Bytes)
        → path ≢ aside → folder_of path ≡ Some folder
        → Becomes disk (done (replacing aside path bytes)) now → IsAtRest (now path) bytes }
{}

/// At each moment while a file is replaced, and after an error, a crash leaves what it might have left before, or the
/// new bytes. It computes nothing: its contract is the law.
pub fn replacing_tears_no_file()
    ensures { (disk : Disk) (aside path : Path) (bytes : Bytes) (calls : List Call) (left : Option Bytes)
        → path ≢ aside → Begins (replacing aside path bytes) calls
        → MayLeave disk calls path left → MayBe (disk path) left ⊎ (left ≡ Some bytes) }
{}

/// At each moment while a new file is put in its place, and after an error, a crash leaves there what it might have
/// left before, or all bytes of the new file. It computes nothing: its contract is the law.
pub fn adding_tears_no_file()
    ensures { (disk : Disk) (aside place : Path) (bytes : Bytes) (calls : List Call) (left : Option Bytes)
        → place ≢ aside → IsAdding aside place bytes calls
        → MayLeave disk calls place left → MayBe (disk place) left ⊎ (left ≡ Some bytes) }
{}

/// Once a file of lines is open, it has the first `count` bytes that it had, and a crash leaves nothing else. It
/// computes nothing: its contract is the law.
pub fn opened_lines_are_at_rest()
    ensures { (disk now : Disk) (path folder : Path) (count : ℕ) → folder_of path ≡ Some folder
        → Becomes disk (done (opening path count)) now
        → IsAtRest (now path) (take count (bytes_there (disk path).there)) }
{}

/// Take bytes that a crash was sure to leave at the beginning of a file of lines, at most the first `count`. At each
/// moment while the file is opened, a crash still leaves them. It computes nothing: its contract is the law.
pub fn opening_loses_no_line()
    ensures { (disk : Disk) (path : Path) (front : Bytes) (count : ℕ) (calls : List Call)
        (left : Option Bytes) → LeavesFront (disk path) front → length front ≤ count
        → Begins (opening path count) calls → MayLeave disk calls path left
        → (rest : Bytes) × (left ≡ Some (front ++ rest)) }
{}

/// Once bytes are appended to a file that is at rest, it is at rest with them. It computes nothing: its contract is
/// the law.
pub fn appended_lines_are_at_rest()
    ensures { (disk now : Disk) (path : Path) (old more : Bytes) → IsAtRest (disk path) old
        → Becomes disk (done (appending path more)) now → IsAtRest (now path) (old ++ more) }
{}

/// At each moment while bytes are appended, and after an error, a crash leaves at the beginning what it was sure to
/// leave before. It computes nothing: its contract is the law.
pub fn appending_loses_no_line()
    ensures { (disk : Disk) (path : Path) (old more : Bytes) (calls : List Call) (left : Option Bytes)
        → LeavesFront (disk path) old → Begins (appending path more) calls
        → MayLeave disk calls path left → (rest : Bytes) × (left ≡ Some (old ++ rest)) }
{}

/// A crash leaves a file that is at rest with exactly its bytes. It computes nothing: its contract is the law.
pub fn files_at_rest_outlast_a_crash()
    ensures { (disk : Disk) (path : Path) (bytes : Bytes) (left : Option Bytes)
        → IsAtRest (disk path) bytes → MayBe (disk path) left → left ≡ Some bytes }
{}
