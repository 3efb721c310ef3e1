//! What is read of a record that was written. The law is the contract of a function that does nothing.
ghost use Rattle.fk_record_text.specs.Whole.{RecordsReadBack};

/// The record of the notes of servers whose paths differ is read as these notes.
pub fn records_read_back()
    ensures { RecordsReadBack }
{}
