//! What each command does with its files.

pub(crate) mod bounded;
pub(crate) mod checked;
pub(crate) mod pairs;
pub(crate) mod printing;
pub(crate) mod questions;
pub(crate) mod run;
pub(crate) mod running;
pub(crate) mod simulated;
