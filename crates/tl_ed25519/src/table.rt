//! The doublings of the base point. Each multiple of the base point is a sum of them.

ghost use Rattle.std.specs.Prelude.{◌≡◌, ◌<◌};
ghost use Rattle.tl_ed25519.specs.Curve.{base_point};
ghost use Rattle.tl_ed25519.specs.Inner.Sums.{cached_of, doubled};

mod less_rows;
mod more_rows;
mod t_rows;
mod z_rows;

use crate::cached::Cached;
use crate::field::Field;
use less_rows::LESS;
use more_rows::MORE;
use t_rows::T;
use z_rows::Z;

// Returns 2^i * B, with the coordinates that doubling B i times gives.
pub(crate) fn doubled_base(i: u32) -> Cached
    requires { i < 256 }
    ensures { result ≡ cached_of (doubled i base_point) }
{
    let i = i as usize;
    Cached {
        less: Field::from_limbs(&LESS[i]),
        more: Field::from_limbs(&MORE[i]),
        z: Field::from_limbs(&Z[i]),
        t: Field::from_limbs(&T[i]),
    }
}
