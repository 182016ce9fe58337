// The rows of an area.
ghost use Rattle.std.specs.Prelude.{◌≡◌};
ghost use Rattle.question.specs.Areas.{row_at};

/// The row of this width that starts here, a byte for each column: after a look or an ask the last
/// row, where it said that this starts. Empty where the area does not reach so far.
pub fn row_at(area: &[u8], start: usize, width: usize) -> &[u8]
    ensures { result.now ≡ row_at area.now start width }
{
    match start.checked_add(width) {
        Some(end) if end <= area.len() => &area[start..end],
        _ => &[],
    }
}
