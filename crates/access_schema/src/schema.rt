// A schema, and its relations and methods by their names.
ghost use Rattle.access_schema.specs.Invariant.{IsSchema};

use lists::{Exact, Seq, Text, Texts};
use meaning::types::{Methods, Relations, Rules};

pub type SourceLines = Seq<SourceLine>;

/// Which kind of source holds a relation, and where.
#[derive(Drop)]
pub struct SourceLine {
    pub rel: u32,
    pub kind: Text,
    pub locator: Text,
}

/// Relations with their access methods, rules, known constants and source lines.
#[derive(Drop)]
pub struct Schema {
    pub relations: Relations,
    pub methods: Methods,
    pub rules: Rules,
    pub constants: Texts,
    pub sources: SourceLines,
    pub ghost valid: { IsSchema relations methods rules constants sources },
}

impl Schema {
    ghost use Rattle.std.specs.Prelude.{◌≡◌, ◌<◌, ◌^◌, length};
    ghost use Rattle.access_schema.specs.Names.{relation_names, method_names, Finds};

    /// The number of the relation with this name; none comes exactly where no relation has it. Takes no memory.
    pub fn relation(&self, name: &Text) -> Option<u32>
        ensures { Finds (relation_names self.now.relations) name.now result }
    {
        for (number, relation) in self.relations.as_slice().iter().enumerate() {
            if relation.name.same(name) {
                return Some(number as u32);
            }
        }
        None
    }

    /// The number of the method with this name; none comes exactly where no method has it. Takes no memory.
    pub fn method(&self, name: &Text) -> Option<u32>
        ensures { Finds (method_names self.now.methods) name.now result }
    {
        for (number, method) in self.methods.as_slice().iter().enumerate() {
            if method.name.same(name) {
                return Some(number as u32);
            }
        }
        None
    }
}
