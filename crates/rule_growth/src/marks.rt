// Marks at numbers.

use lists::NoMemory;

/// Whether the mark with that number is set. Takes no memory.
pub fn is_marked(marks: &[bool], number: usize) -> bool {
    match marks.get(number) {
        Some(mark) => *mark,
        None => false,
    }
}

/// Sets the mark with that number.
pub fn set(marks: &mut Vec<bool>, number: usize) -> Result<(), NoMemory> {
    for _ in marks.len()..=number {
        marks.push(false)?;
    }
    if let Some(mark) = marks.get_mut(number) {
        *mark = true;
    }
    Ok(())
}
