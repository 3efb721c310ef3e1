//! A thread's record in memory of its own, so that the small objects of an image stay small.
ghost use Rattle.std.specs.Prelude.{◌≡◌, IfOk};

use crate::image::image::ThreadRec;
use fk_model::NoMemory;
use std::alloc::Global;
use std::marker::Model;

/// A thread's record. Contracts see the record alone, not where it lies.
#[derive(Drop)]
pub struct BoxedThread {
    thread: Box<ThreadRec>,
}

impl Model for BoxedThread {
    ghost use Rattle.fk_image.specs.declared.image.image.ThreadRec as records;

    ghost Value = { records.ThreadRec };

    ghost view = { λ s. s.thread.value };
}

impl BoxedThread {
    /// Puts a record into memory of its own.
    ///
    /// # Errors
    ///
    /// There is no memory for it.
    pub fn new(alloc: Global, thread: ThreadRec) -> Result<BoxedThread, NoMemory>
        ensures { IfOk result (λ boxed. boxed ≡ thread) }
    {
        Ok(BoxedThread {
            thread: Box::new(alloc, thread)?,
        })
    }

    /// The record.
    pub fn get(&self) -> &ThreadRec
        ensures { result.now ≡ self.now }
    {
        &self.thread
    }
}
