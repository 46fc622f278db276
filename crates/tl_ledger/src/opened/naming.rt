//! Whether a checkpoint is of the log that the keys belong to.

ghost use Rattle.std.specs.Prelude.{◌≡◌, ◌↔◌, map, IsTrue};
ghost use Rattle.tl_ledger.specs.Opening.{IsNamed};

use tl_note::Verifier;

// Reports whether the verifier has this name.
fn has_name(verifier: &Box<dyn Verifier>, name: &str) -> bool
    ensures { IsTrue result ↔ ((key verifier.now).name ≡ name.now) }
{
    verifier.name() == name
}

/// Reports whether one of the verifiers has this name. If the name is a checkpoint's origin, the checkpoint is then
/// of the log that the verifiers belong to (C2SP tlog-checkpoint). It allocates nothing.
pub fn is_named(verifiers: &[Box<dyn Verifier>], name: &str) -> bool
    ensures { IsTrue result ↔ IsNamed (map (λ v. key v) verifiers.now) name.now }
{
    match verifiers {
        [] => false,
        [first, rest @ ..] => has_name(first, name) || is_named(rest, name),
    }
}
