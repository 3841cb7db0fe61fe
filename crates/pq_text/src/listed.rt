// Items printed one after another, with a comma and a blank between two.
ghost use Rattle.std.specs.Prelude.{◌≡◌, ◌++◌, ℕ, List, OnOk, flat_map, codes};
ghost use Rattle.pq_text.specs.Listed.{listed};
ghost use Rattle.pq_text.specs.Printing.{printed_value};
ghost use Rattle.pq_text.specs.Utf8.{KeepsUtf8};

use crate::print::print_value;
use lists::Text;
use std::alloc::AllocError;

/// A printed form of items.
pub trait Prints {
    /// What is printed.
    type Item;

    /// the text of an item
    ghost text: { Self → Self.Item → List ℕ };

    /// Appends the text of an item.
    fn print(&self, out: &mut Vec<u8>, item: &Self::Item) -> Result<(), AllocError>
        ensures written { OnOk result (out.new.items ≡ out.old.items ++ text self.now item.now) }
        ensures utf8 { OnOk result (KeepsUtf8 out.old.items out.new.items) };
}

/// Appends items, with a comma and a blank between two.
pub fn print_listed<P: Prints>(
    out: &mut Vec<u8>,
    form: &P,
    items: &[P::Item],
) -> Result<(), AllocError>
    ensures written { OnOk result (out.new.items ≡ out.old.items ++ listed (P.text form.now) items.now) }
    ensures utf8 { OnOk result (KeepsUtf8 out.old.items out.new.items) }
{
    let [first, rest @ ..] = items else {
        return Ok(());
    };
    form.print(out, first)?;
    print_further(out, form, rest)
}

// Appends a comma, a blank and an item, for each.
fn print_further<P: Prints>(
    out: &mut Vec<u8>,
    form: &P,
    items: &[P::Item],
) -> Result<(), AllocError>
    ensures written { OnOk result (out.new.items ≡ out.old.items ++ flat_map (λ y. codes ", " ++ P.text form.now y) items.now) }
    ensures utf8 { OnOk result (KeepsUtf8 out.old.items out.new.items) }
{
    for item in items {
        out.extend_from_slice(b", ")?;
        form.print(out, item)?;
    }
    Ok(())
}

// Values as they are printed.
struct PrintedValue;

impl Prints for PrintedValue {
    type Item = Text;

    ghost text = { λ form. printed_value };

    fn print(&self, out: &mut Vec<u8>, item: &Text) -> Result<(), AllocError> {
        print_value(out, item)
    }
}

/// Appends values in quotes, with a comma and a blank between two.
pub fn print_values(out: &mut Vec<u8>, values: &[Text]) -> Result<(), AllocError>
    ensures written { OnOk result (out.new.items ≡ out.old.items ++ listed printed_value values.now) }
    ensures utf8 { OnOk result (KeepsUtf8 out.old.items out.new.items) }
{
    print_listed(out, &PrintedValue, values)
}
