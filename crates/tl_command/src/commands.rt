//! One module for each command.

pub(crate) mod audit;
pub(crate) mod build;
pub(crate) mod check;
pub(crate) mod checking;
pub(crate) mod cosigned;
pub(crate) mod head;
pub(crate) mod keygen;
pub(crate) mod opening;
pub(crate) mod proving;
