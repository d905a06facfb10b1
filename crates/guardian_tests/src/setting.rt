//! `Setting`: the heaps in which a test's rows are answered, and its lines.

use crate::row_fault::{Result, RowFault};
use argus_commands::{Script, parse};
use argus_values::{Budget, Heap};
use std::alloc::{AllocError, Global};

/// The heaps in which a test's rows are answered, and its lines.
///
/// ```text
/// let setting = Setting::new(rt.alloc())?;
/// setting.budget.allow(1);
/// let copy = content.duplicate(setting.heap)?;            // OutOfMemory where it takes two
/// ```
#[derive(Clone, Copy)]
pub(crate) struct Setting<'a> {
    /// Always has memory, for what is read, printed and compared.
    pub(crate) texts: Heap,
    /// That of the calls.
    pub(crate) heap: Heap,
    /// That of the calls' heap.
    pub(crate) budget: Budget,
    /// The lines of the test, among them those of its script.
    pub(crate) lines: &'a str,
    /// The rows of a sharing.
    pub(crate) rows: &'a str,
}

impl<'a> Setting<'a> {
    /// Of no test yet. `AllocError`: there was no memory for the budgets.
    pub(crate) fn new(alloc: Global) -> std::result::Result<Setting<'a>, AllocError> {
        let budget = Budget::new(alloc)?;
        Ok(Setting {
            texts: Heap::new(alloc)?,
            heap: Heap::with_budget(alloc, budget),
            budget,
            lines: "",
            rows: "",
        })
    }

    /// The script whose lines stand behind `| `.
    pub(crate) fn script(self) -> Result<Script> {
        let mut text = String::new(self.texts.room());
        for line in self.lines.lines() {
            if let Some(step) = line.strip_prefix("| ") {
                text.push_str(step)?;
                text.push_str("\n")?;
            }
        }
        match parse(self.texts, text.as_bytes()) {
            Ok(script) => Ok(script),
            Err(_) => Err(RowFault::NotSpelled),
        }
    }
}
