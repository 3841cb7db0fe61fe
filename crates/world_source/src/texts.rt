// The texts of a schema and a query over eight relations of the generator.
ghost use Rattle.std.specs.Prelude.{◌≡◌, ◌≤◌, ◌++◌, IfOk, OnOk, length};
ghost use Rattle.world_source.specs.Texts.{query_text, schema_text, source_line, source_lines};

use lists::{Bytes, NoMemory};
use pq_text::print_number;
use std::alloc::Global;

/// The texts of a schema and of a query over it.
#[derive(Drop)]
pub struct WorldTexts {
    pub schema: Bytes,
    pub query: Bytes,
}

const RELATIONS: &[u8] =
    b"relation c1(a, b)\nrelation c2(a, b)\nrelation c3(a, b)\nrelation c4(a, b)\nrelation c5(a, b)\nrelation c6(a, b)\nrelation c7(a, b)\nrelation c8(a, b)\n";

const METHODS: &[u8] =
    b"method m1 on c1() cost 1\nmethod m2 on c2(a) cost 1\nmethod m3 on c3(a) cost 1\nmethod m4 on c4(a) cost 1\nmethod m5 on c5(a) cost 1\nmethod m6 on c6(a) cost 1\nmethod m7 on c7(a) cost 1\nmethod m8 on c8(a) cost 1\n";

const RULES: &[u8] =
    b"rule c1(x, y) -> c2(y, z)\nrule c2(x, y) -> c3(y, z)\nrule c3(x, y) -> c4(y, z)\nrule c4(x, y) -> c5(y, z)\nrule c5(x, y) -> c6(y, z)\nrule c6(x, y) -> c7(y, z)\nrule c7(x, y) -> c8(y, z)\n";

const QUERY: &[u8] =
    b"SELECT DISTINCT t1.a, t8.b FROM c1 t1, c2 t2, c3 t3, c4 t4, c5 t5, c6 t6, c7 t7, c8 t8 WHERE t1.b = t2.a AND t2.b = t3.a AND t3.b = t4.a AND t4.b = t5.a AND t5.b = t6.a AND t6.b = t7.a AND t7.b = t8.a";

/// The world of a size: a schema of eight relations of so many rows each, in a chain, and the query that goes through all of them.
pub fn world(alloc: Global, n: u32) -> Result<WorldTexts, NoMemory>
    requires { n ≤ 10000 }
    ensures schema { IfOk result (λ texts. texts.schema ≡ schema_text n) }
    ensures query { IfOk result (λ texts. texts.query ≡ query_text) }
    ensures short { IfOk result (λ texts. length texts.schema ≤ 2000) }
{
    let schema = schema_bytes(alloc, n)?;
    let query = Vec::from_slice(alloc, QUERY)?;
    Ok(WorldTexts {
        schema: Bytes::from_vec(schema),
        query: Bytes::from_vec(query),
    })
}

fn schema_bytes(alloc: Global, n: u32) -> Result<Vec<u8>, NoMemory>
    ensures { IfOk result (λ text. text.items ≡ schema_text n) }
{
    let mut text = Vec::new(alloc);
    text.extend_from_slice(RELATIONS)?;
    text.extend_from_slice(METHODS)?;
    text.extend_from_slice(RULES)?;
    push_sources(&mut text, n)?;
    Ok(text)
}

// A source line for each relation.
fn push_sources(text: &mut Vec<u8>, n: u32) -> Result<(), NoMemory>
    ensures { OnOk result (text.new.items ≡ text.old.items ++ source_lines n) }
{
    for k in 1..9 {
        push_source(text, n, k)?;
    }
    Ok(())
}

// The source line of the relation with this number.
fn push_source(text: &mut Vec<u8>, n: u32, k: u32) -> Result<(), NoMemory>
    ensures { OnOk result (text.new.items ≡ text.old.items ++ source_line n k) }
{
    text.extend_from_slice(b"source c")?;
    print_number(text, k as u64)?;
    text.extend_from_slice(b" world '")?;
    print_number(text, k as u64)?;
    text.extend_from_slice(b"/")?;
    print_number(text, n as u64)?;
    text.extend_from_slice(b"'\n")
}
