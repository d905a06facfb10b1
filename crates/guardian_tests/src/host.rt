//! `Host`: what tests with threads need of the runtime.

use std::io::Print;
use std::sync::Wait;
use std::thread::Threads;

/// What tests with threads need of the runtime.
pub trait Host: Threads + Wait + Print + Copy + Drop + Send + Sync {}

impl<R: Threads + Wait + Print + Copy + Drop + Send + Sync> Host for R {}
