//! The law of tables. The function's clause is the law; the body does nothing.
ghost use Rattle.source_tables.specs.Laws.{MemoryIsNoFault};

/// Under each declaration bytes are a table or have a fault of their own, so the definition never says
/// that memory was wanting.
pub fn memory_is_no_fault()
    ensures { MemoryIsNoFault }
{}
