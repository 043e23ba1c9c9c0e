//! Memory that a run works in.
ghost use Rattle.std.specs.Prelude.{◌≤◌, IfOk, vec_len};

use evaluation::value::Value;
use evaluation::workspace::{BINDINGS, UNBOUND};
use mapping::mapping::Binding;
use std::alloc::{AllocError, Global};

/// Memory for all bindings of a choice. A run borrows it as long as it is open.
#[derive(Drop)]
pub struct Memory {
    pub(crate) bindings: Vec<Binding<Value>>,
    ghost enough: { 40016 ≤ vec_len bindings },
}

impl Memory {
    /// Memory for the choices of a run.
    pub fn new(heap: Global) -> Result<Memory, AllocError>
        ensures enough { IfOk result (λ m. 40016 ≤ vec_len m.bindings) }
    {
        Ok(Memory {
            bindings: vec![in heap; UNBOUND; BINDINGS]?,
        })
    }
}
