// The text of a schema.
ghost use Rattle.std.specs.Prelude.{◌≡◌, ◌<◌, ◌++◌, ◌∷◌, [], map, length, IfOk, OnOk, All, slice_index_or};
ghost use Rattle.std.specs.List.{AllByRecursion};
ghost use Rattle.std.specs.Str.{IsUtf8};
ghost use Rattle.pq_text.specs.Utf8.{KeepsUtf8};
ghost use Rattle.pq_text.specs.Pieces.{lines_text};
ghost use Rattle.access_schema.specs.declared.part.Part.TheVariants.{Constant as ConstantPart};
ghost use Rattle.access_schema.specs.declared.schema.Schema.{Schema};
ghost use Rattle.tgd_reader.specs.SchemaText.{IsSchemaText};
ghost use Rattle.tgd_reader.specs.Printed.{relation_part, method_part, rule_part, source_part, is_int, holds_integers, has_integers, version_lines, version_pieces, text_of_schema, AreSameButLines};
ghost use Rattle.tgd_reader.specs.Printing.{WritesLines, IsMethodPlaced, IsRulePlaced, IsSourcePlaced};

use crate::pieces::{
    atoms, end_line, listing, mark, name, number, relation_at, typed_listing, value, word,
};
use access_schema::{Method, NoMemory, Relation, Rule, Schema, SourceLine, Text, Texts};
use lists::{Bytes, Copies, Seq};
use meaning::types::Sort;
use std::alloc::Global;

/// The text of a schema: its declarations, one on a line, each with a line feed at its end. Where some column holds
/// integers, the line `schema 2` stands before them.
///
/// Foreign keys are printed as the rules that they became, and all constants are printed, those of rules too. The text
/// is read as the same schema again, but for the lines of its rules; it may be longer than the text that was read.
pub fn schema_text(alloc: Global, schema: &Schema) -> Result<Bytes, NoMemory>
    ensures text { IfOk result (λ bytes. bytes ≡ text_of_schema schema.now) }

    // The text is UTF-8, and so it is read as the same schema again, but for the lines of its rules.
    ensures utf8 { IfOk result (λ bytes. IsUtf8 bytes) }
    ensures read { IfOk result (λ bytes. (again : Schema) × IsSchemaText bytes again × AreSameButLines again schema.now) }
{
    let bytes = schema_bytes(alloc, schema)?;
    Ok(Seq::from_vec(bytes))
}

fn schema_bytes(alloc: Global, schema: &Schema) -> Result<Vec<u8>, NoMemory>
    ensures written { IfOk result (λ bytes. bytes.items ≡ text_of_schema schema.now) }
    ensures utf8 { IfOk result (λ bytes. IsUtf8 bytes.items) }
{
    let relations = schema.relations.as_slice();
    let mut out = Vec::new(alloc);
    print_version(&mut out, has_integers(relations))?;
    print_relations(&mut out, relations)?;
    print_methods(alloc, &mut out, relations, schema.methods.as_slice())?;
    print_rules(&mut out, relations, schema.rules.as_slice())?;
    print_constants(&mut out, schema.constants.as_slice())?;
    print_sources(&mut out, relations, schema.sources.as_slice())?;
    Ok(out)
}

// Whether some column holds integers.
fn has_integers(relations: &[Relation]) -> bool
    ensures { result ≡ has_integers relations.now }
{
    relations.iter().any(|relation| holds_integers(relation))
}

fn holds_integers(relation: &Relation) -> bool
    ensures { result ≡ holds_integers relation.now }
{
    relation.sorts.as_slice().iter().any(|sort| is_int(sort))
}

fn is_int(sort: &Sort) -> bool
    ensures { result ≡ is_int sort.now }
{
    matches!(sort, Sort::Int)
}

// The line of version 2, where columns have sorts.
fn print_version(out: &mut Vec<u8>, has_sorts: bool) -> Result<(), NoMemory>
    ensures written { OnOk result (out.new.items ≡ out.old.items ++ lines_text (version_lines has_sorts)) }
    ensures utf8 { OnOk result (KeepsUtf8 out.old.items out.new.items) }
{
    if has_sorts {
        print_second_version(out)
    } else {
        Ok(())
    }
}

fn print_second_version(out: &mut Vec<u8>) -> Result<(), NoMemory>
    ensures written { OnOk result (out.new.items ≡ out.old.items ++ lines_text (version_pieces ∷ [])) }
    ensures utf8 { OnOk result (KeepsUtf8 out.old.items out.new.items) }
{
    word(out, false, "schema")?;
    number(out, 2)?;
    end_line(out)
}

fn print_relations(out: &mut Vec<u8>, relations: &[Relation]) -> Result<(), NoMemory>
    ensures written { OnOk result (WritesLines out.old.items out.new.items (map relation_part relations.now)) }
    ensures utf8 { OnOk result (KeepsUtf8 out.old.items out.new.items) }
{
    let mut left = relations;
    while let [relation, after @ ..] = left {
        print_relation(out, relation)?;
        left = after;
    }
    Ok(())
}

fn print_relation(out: &mut Vec<u8>, relation: &Relation) -> Result<(), NoMemory>
    ensures written { OnOk result (WritesLines out.old.items out.new.items (relation_part relation.now ∷ [])) }
    ensures utf8 { OnOk result (KeepsUtf8 out.old.items out.new.items) }
{
    word(out, false, "relation")?;
    typed_listing(
        out,
        &relation.name,
        relation.columns.as_slice(),
        relation.sorts.as_slice(),
    )?;
    end_line(out)
}

fn print_methods(
    alloc: Global,
    out: &mut Vec<u8>,
    relations: &[Relation],
    methods: &[Method],
) -> Result<(), NoMemory>
    requires { AllByRecursion (IsMethodPlaced relations.now) methods.now }
    ensures written { OnOk result (WritesLines out.old.items out.new.items (map (method_part relations.now) methods.now)) }
    ensures utf8 { OnOk result (KeepsUtf8 out.old.items out.new.items) }
{
    let mut left = methods;
    while let [method, after @ ..] = left {
        print_method(alloc, out, relations, method)?;
        left = after;
    }
    Ok(())
}

fn print_method(
    alloc: Global,
    out: &mut Vec<u8>,
    relations: &[Relation],
    method: &Method,
) -> Result<(), NoMemory>
    requires { IsMethodPlaced relations.now method.now }
    ensures written { OnOk result (WritesLines out.old.items out.new.items (method_part relations.now method.now ∷ [])) }
    ensures utf8 { OnOk result (KeepsUtf8 out.old.items out.new.items) }
{
    let relation = relation_at(relations, method.rel);
    let inputs = names_at(alloc, relation.columns.as_slice(), method.inputs.as_slice())?;
    word(out, false, "method")?;
    name(out, true, &method.name)?;
    word(out, true, "on")?;
    listing(out, &relation.name, inputs.as_slice())?;
    word(out, true, "cost")?;
    number(out, method.cost)?;
    end_line(out)
}

// The names at some places of a list of columns.
fn names_at(alloc: Global, columns: &[Text], places: &[u32]) -> Result<Texts, NoMemory>
    requires { All (λ place. place < length columns.now) places.now }
    ensures { IfOk result (λ names. names ≡ map (λ place. slice_index_or columns.now place []) places.now) }
{
    let mut names = Seq::new(alloc);
    for place in places {
        names.push(columns[*place as usize].copy(alloc)?)?;
    }
    Ok(names)
}

fn print_rules(out: &mut Vec<u8>, relations: &[Relation], rules: &[Rule]) -> Result<(), NoMemory>
    requires { AllByRecursion (IsRulePlaced relations.now) rules.now }
    ensures written { OnOk result (WritesLines out.old.items out.new.items (map (rule_part relations.now) rules.now)) }
    ensures utf8 { OnOk result (KeepsUtf8 out.old.items out.new.items) }
{
    let mut left = rules;
    while let [rule, after @ ..] = left {
        print_rule(out, relations, rule)?;
        left = after;
    }
    Ok(())
}

fn print_rule(out: &mut Vec<u8>, relations: &[Relation], rule: &Rule) -> Result<(), NoMemory>
    requires { IsRulePlaced relations.now rule.now }
    ensures written { OnOk result (WritesLines out.old.items out.new.items (rule_part relations.now rule.now ∷ [])) }
    ensures utf8 { OnOk result (KeepsUtf8 out.old.items out.new.items) }
{
    word(out, false, "rule")?;
    atoms(out, relations, rule.body.as_slice())?;
    mark(out, true, "->")?;
    atoms(out, relations, rule.head.as_slice())?;
    end_line(out)
}

fn print_constants(out: &mut Vec<u8>, constants: &[Text]) -> Result<(), NoMemory>
    ensures written { OnOk result (WritesLines out.old.items out.new.items (map ConstantPart constants.now)) }
    ensures utf8 { OnOk result (KeepsUtf8 out.old.items out.new.items) }
{
    let mut left = constants;
    while let [text, after @ ..] = left {
        print_constant(out, text)?;
        left = after;
    }
    Ok(())
}

fn print_constant(out: &mut Vec<u8>, text: &Text) -> Result<(), NoMemory>
    ensures written { OnOk result (WritesLines out.old.items out.new.items (ConstantPart text.now ∷ [])) }
    ensures utf8 { OnOk result (KeepsUtf8 out.old.items out.new.items) }
{
    word(out, false, "constant")?;
    value(out, true, text)?;
    end_line(out)
}

fn print_sources(
    out: &mut Vec<u8>,
    relations: &[Relation],
    sources: &[SourceLine],
) -> Result<(), NoMemory>
    requires { AllByRecursion (IsSourcePlaced relations.now) sources.now }
    ensures written { OnOk result (WritesLines out.old.items out.new.items (map (source_part relations.now) sources.now)) }
    ensures utf8 { OnOk result (KeepsUtf8 out.old.items out.new.items) }
{
    let mut left = sources;
    while let [source, after @ ..] = left {
        print_source(out, relations, source)?;
        left = after;
    }
    Ok(())
}

fn print_source(
    out: &mut Vec<u8>,
    relations: &[Relation],
    source: &SourceLine,
) -> Result<(), NoMemory>
    requires { IsSourcePlaced relations.now source.now }
    ensures written { OnOk result (WritesLines out.old.items out.new.items (source_part relations.now source.now ∷ [])) }
    ensures utf8 { OnOk result (KeepsUtf8 out.old.items out.new.items) }
{
    word(out, false, "source")?;
    name(out, true, &relation_at(relations, source.rel).name)?;
    name(out, true, &source.kind)?;
    value(out, true, &source.locator)?;
    end_line(out)
}
