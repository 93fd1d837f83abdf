/// What a target's thread does between two steps of a READ or WRITE, when other threads have their
/// turns.
pub trait Breath {
    /// Comes behind a step of the task of a nexus, an initiator's name and a target port number,
    /// after which `done` blocks are moved, and before the next.
    fn between(&mut self, nexus: (u64, u16), done: u32);
}

/// Goes on at once.
#[derive(Clone, Copy, Debug)]
pub struct NoBreath;

impl Breath for NoBreath {
    fn between(&mut self, _nexus: (u64, u16), _done: u32) {}
}
