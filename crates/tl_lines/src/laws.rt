//! Laws over the definitions: what the lines of an input are, and that each is reported once.

ghost use Rattle.std.specs.Prelude.{◌≡◌, List, ◌++◌};
ghost use Rattle.tl_hash.specs.Bytes.{Bytes};
ghost use Rattle.tl_lines.specs.Lines.{AreLines, IsAtLine, Tells, Told, Uncut, lines_of, told_of, unread};

/// The lines of an input, each with its newline, are the input, except that the input may lack the last newline. No
/// line contains a newline. It computes nothing: its contract is the law.
pub fn lines_are_the_input()
    ensures { (input : Bytes) → AreLines input (lines_of input) }
{}

/// If one call reports some lines and a later call others, then together they report them all, in order. It computes
/// nothing: its contract is the law.
pub fn calls_tell_in_order()
    ensures { (u v w : Uncut) (read next : Bytes) (told later : List Told)
        → Tells u v read told → Tells v w next later → Tells u w (read ++ next) (told ++ later) }
{}

/// If nothing was read before, and the next byte begins a line, then each line of what was read has been reported, in
/// order, and nothing else. It computes nothing: its contract is the law.
pub fn each_line_is_told()
    ensures { (v : Uncut) (read : Bytes) (told : List Told)
        → Tells unread v read told → IsAtLine v → told ≡ told_of 0 (lines_of read) }
{}
