// The gate before each look.

use std::sync::Wait;

/// Where a run stops before each look. It has no meaning for the answers: a test may hold a run here until another one
/// has come as far.
pub trait Gate {
    /// Engine `engine` is about to make look number `look` of its run, counted from 1.
    fn pass<R: Wait>(&self, rt: &R, engine: u32, look: u64);
}

/// A gate that holds nobody.
#[derive(Clone, Copy, Debug)]
pub struct OpenGate;

impl Gate for OpenGate {
    fn pass<R: Wait>(&self, _rt: &R, _engine: u32, _look: u64) {}
}
