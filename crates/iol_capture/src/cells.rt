//! A row of a table in its cells.
ghost use Rattle.std.specs.Prelude.{◌≡◌, ◌+◌, ◌<◌, ◌∷◌, ◌==◌, ◌-◌, [], length, take, IfSome};
ghost use Rattle.std.specs.List.{position, slice_split};
ghost use Rattle.std.specs.Option.{option_map_or};
ghost use Rattle.iol_capture.specs.Cells.{cell_text, without_end};

/// Where the first comma stands.
fn comma_in(row: &[u8]) -> Option<usize>
    ensures { result ≡ position (λ b. b == 44) row.now }
{
    row.iter().position(|octet| *octet == b',')
}

/// The first cell of a row, and what stands behind the comma after it if there is one.
fn first_cell(row: &[u8]) -> (&[u8], Option<&[u8]>)
    ensures parts { slice_split (λ b. b == 44) row.now
        ≡ result.0.now
        ∷ option_map_or (λ later. slice_split (λ b. b == 44) later.now) result.1 [] }
    ensures shorter { IfSome result.1 (λ later. length result.0.now + length later.now + 1
        ≡ length row.now) }
{
    match comma_in(row) {
        Some(place) => (&row[..place], Some(&row[place + 1..])),
        None => (row, None),
    }
}

/// The cells of a row, which one comma parts.
#[derive(Clone, Copy, Debug)]
pub(crate) struct Cells<'a> {
    left: Option<&'a [u8]>,
}

impl<'a> Cells<'a> {
    ghost use Rattle.std.specs.Prelude.{◌≡◌};
    ghost use Rattle.iol_capture.specs.Cells.{cells_left, cells_of};

    /// The cells of a row.
    pub fn of(row: &'a [u8]) -> Cells<'a>
        ensures { cells_left result ≡ cells_of row.now }
    {
        Cells { left: Some(row) }
    }
}

impl<'a> Iterator for Cells<'a> {
    ghost use Rattle.std.specs.Iterator.{YieldsFirstRef, item_count};
    ghost use Rattle.iol_capture.specs.Cells.{cells_left};

    type Item = &'a [u8];

    ghost next_gives = { YieldsFirstRef cells_left };

    ghost remaining = { item_count cells_left };

    fn next(&mut self) -> Option<&'a [u8]> {
        let (cell, later) = first_cell(self.left?);
        self.left = later;
        Some(cell)
    }
}

/// A line without this octet at its end.
pub(crate) fn without_end(line: &[u8], end: u8) -> &[u8]
    ensures { result.now ≡ without_end line.now end }
{
    if line.is_empty() {
        return line;
    }
    let last = line.len() - 1;
    if line[last] == end {
        &line[..last]
    } else {
        line
    }
}

/// What a cell says, within quotes or without.
pub(crate) fn unquoted(cell: &[u8]) -> &[u8]
    ensures { result.now ≡ cell_text cell.now }
{
    match cell {
        [b'"', inner @ ..] => without_end(inner, b'"'),
        _ => cell,
    }
}
