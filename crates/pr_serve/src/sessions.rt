//! The sessions of a target: those under way in threads of their own, and what is left of the others.

ghost use Rattle.std.specs.Prelude.{◌≡◌, ◌≤◌, ◌+◌, ◌^◌, ℕ, Some, vec_len, vec_capacity};

use crate::connection::{Begun, Ended};
use pr_core::Core;
use pr_gate::{Retired, Stands};
use std::alloc::Global;
use std::sync::Arc;
use std::sync::atomic::AtomicBool;
use std::thread::{Promise, PromisedHandle};

/// Whether a thread has ended.
pub(crate) type Flag = Arc<AtomicBool, Global>;

/// A thread that serves a connection.
#[derive(Drop)]
pub(crate) struct Running<X: Drop, P: Promise<X>> {
    pub(crate) thread: PromisedHandle<X, P>,
    pub(crate) has_ended: Flag,
}

/// The sessions of a target. Those under way take memory, and those that have ended none.
#[derive(Drop)]
pub(crate) struct Sessions<X: Drop, P: Promise<X>, T: Stands> {
    pub(crate) alloc: Global,
    pub(crate) running: Vec<Running<X, P>>,
    // There is room for as many as will ever be, since they take no bytes.
    pub(crate) retired: Vec<Retired<T>>,
    pub(crate) spent: Option<u64>,
    ghost caused: { (ticket : ℕ) → spent ≡ Some ticket → 2 ^ 62 ≤ ticket },
    ghost roomed: { vec_len running + vec_len retired ≤ vec_capacity retired },
}

/// The sessions of a target over these streams.
pub(crate) type SessionsOver<S, K, M, D> = Sessions<
    Ended<Core<M, D>>,
    Begun<S, K, Core<M, D>>,
    Core<M, D>,
>;
