//! `Host`: what the works on a shared guardian need of the runtime.

use std::rt::Clock;
use std::sync::Wait;
use std::thread::Threads;

/// What the works on a shared guardian need of the runtime.
pub(crate) trait Host: Threads + Wait + Clock + Copy + Drop + Send + Sync {}

impl<R: Threads + Wait + Clock + Copy + Drop + Send + Sync> Host for R {}
