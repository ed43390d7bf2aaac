//! What source lines and mapping lines give.
ghost use Rattle.std.specs.Prelude.{◌≡◌, []};

use mapping_facts::Mapping;
use source_tables::TableDecl;
use std::alloc::Global;
use vocabulary::List;

/// The tables and the mappings of a project's lines, each list in the order of the lines.
#[derive(Debug, Drop)]
pub struct Sources {
    pub tables: List<TableDecl>,
    pub mappings: List<Mapping>,
}

impl Sources {
    pub fn new(alloc: Global) -> Sources
        ensures { result ≡ record { tables = []; mappings = [] } }
    {
        Sources {
            tables: List::new(alloc),
            mappings: List::new(alloc),
        }
    }

    pub fn tables(&self) -> &[TableDecl]
        ensures { result.now ≡ self.now.tables }
    {
        self.tables.items()
    }

    pub fn mappings(&self) -> &[Mapping]
        ensures { result.now ≡ self.now.mappings }
    {
        self.mappings.items()
    }
}
