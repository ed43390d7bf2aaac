//! The laws of project texts. A function's clause is the law; the bodies do nothing.
ghost use Rattle.project_language.specs.Laws.{MemoryIsNoFault, MemoryIsNoFaultOver, NamesNoOntology};

/// What memory runs out on says nothing of the text.
pub fn memory_is_no_fault()
    ensures alone { MemoryIsNoFault }
    ensures over { MemoryIsNoFaultOver }
{}

/// A text that is a project without an ontology is read as such.
pub fn projects_name_no_ontology()
    ensures { NamesNoOntology }
{}
