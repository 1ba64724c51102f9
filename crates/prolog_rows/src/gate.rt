// A gate that counts.
use journal_base::Gate;
use std::sync::Wait;
use std::sync::atomic::{AtomicU32, AtomicU64, Ordering};

/// A gate that counts its passes, and keeps the engine and the look of the last one.
#[derive(Drop)]
pub struct CountingGate {
    passes: AtomicU64,
    engine: AtomicU32,
    look: AtomicU64,
}

impl CountingGate {
    /// A gate that nobody passed yet: the last engine is 9, and its look 0.
    pub fn new() -> CountingGate {
        CountingGate {
            passes: AtomicU64::new(0),
            engine: AtomicU32::new(9),
            look: AtomicU64::new(0),
        }
    }

    /// How often it was passed, and the engine and the look of the last pass.
    pub fn counted(&self) -> (u64, u32, u64) {
        (
            self.passes.load(Ordering::SeqCst),
            self.engine.load(Ordering::SeqCst),
            self.look.load(Ordering::SeqCst),
        )
    }
}

impl Gate for CountingGate {
    fn pass<R: Wait>(&self, _rt: &R, engine: u32, look: u64) {
        self.passes.fetch_add(1, Ordering::SeqCst);
        self.engine.store(engine, Ordering::SeqCst);
        self.look.store(look, Ordering::SeqCst);
    }
}
