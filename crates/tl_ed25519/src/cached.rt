//! A point prepared to be the second one of a sum.

ghost use Rattle.tl_ed25519.specs.Inner.Sums as sums;

use crate::field::Field;
use std::marker::Model;

// What a sum needs of its second point: y - x, y + x, z, and t multiplied by twice the constant d.
#[derive(Drop)]
pub(crate) struct Cached {
    pub(crate) less: Field,
    pub(crate) more: Field,
    pub(crate) z: Field,
    pub(crate) t: Field,
}

impl Model for Cached {
    ghost Value = { sums.Cached };

    ghost view = { λ c. record { less = c.less; more = c.more; z = c.z; t = c.t } };
}
