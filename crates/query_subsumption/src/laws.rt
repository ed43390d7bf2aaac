//! The law of mappings. The function's clause is the law; the body does nothing.
ghost use Rattle.query_subsumption.specs.Laws.{MappingIsSound};

/// Where a query maps into another, each image of the other's head over given facts is one of its
/// own.
pub fn mapping_is_sound()
    ensures { MappingIsSound }
{}
