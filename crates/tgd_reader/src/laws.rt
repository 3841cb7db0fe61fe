// What schema texts promise their readers: laws on the definitions alone, as functions that do nothing.
ghost use Rattle.std.specs.Prelude.{◌≡◌, ℕ, List};
ghost use Rattle.access_schema.specs.declared.schema.Schema.{Schema};
ghost use Rattle.tgd_reader.specs.declared.fault.ReadFault.{ReadFault};
ghost use Rattle.tgd_reader.specs.declared.fault.ReadFault.TheVariants.{NoMemory};
ghost use Rattle.tgd_reader.specs.Grammar.{HasParts};
ghost use Rattle.tgd_reader.specs.SchemaText.{DeclaresSchema, IsSchemaText, IsReadFault};
ghost use Rattle.tgd_reader.specs.Printed.{parts_of, text_of_schema, has_integers, printed_parts, AreSameButLines};

/// The text of a schema has exactly the schema's declarations as its parts, each on the line on which it is printed;
/// and it declares the same schema again, but for the lines of its rules.
pub fn printed_schemas_are_read()
    ensures parts { (schema : Schema) → HasParts (text_of_schema schema) (printed_parts (has_integers schema.relations) (parts_of schema)) }
    ensures schema { (schema : Schema) → (again : Schema) × DeclaresSchema (text_of_schema schema) again × AreSameButLines again schema }
{}

/// Bytes that are the text of a schema have no fault.
pub fn schema_texts_have_no_fault()
    ensures { (bytes : List ℕ) (schema : Schema) (fault : ReadFault) → IsSchemaText bytes schema → IsReadFault bytes fault → fault ≡ NoMemory }
{}
