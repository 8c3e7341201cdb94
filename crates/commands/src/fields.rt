ghost use Rattle.commands.specs.Steps.{TakesNumber, Shorter, Listed, Named, Opened};

use crate::boards::Boards;
use crate::command::Kind;
use crate::names::kind_of;

// The number that the first field is, and the fields after it.
fn number_field(fields: &[u8]) -> Option<(u32, &[u8])>
    ensures takes { TakesNumber fields.now result }
    ensures shorter { Shorter fields.now result }
{
    let (field, rest) = words::first(fields, b' ');
    let n = words::number(field)?;
    Some((n, rest))
}

// The numbers that the fields are, or how many bytes are left from the first on that is none.
pub(crate) fn numbers<const N: usize>(fields: &[u8]) -> Result<[u32; N], usize>
    ensures { Listed N fields.now result }
{
    let mut found = [0; N];
    let mut rest = fields;
    for slot in &mut found {
        let (n, after) = number_field(rest).ok_or(rest.len())?;
        *slot = n;
        rest = after;
    }
    Ok(found)
}

// The boards that the fields name, or how many bytes are left from the first on that is no number.
pub(crate) fn named_boards(fields: &[u8]) -> Result<Boards, usize>
    ensures { Named fields.now result }
{
    // No `split`: its pieces do not tell how many bytes are left.
    let mut named = Boards::default();
    let mut rest = fields;
    while !rest.is_empty() {
        let (board, after) = number_field(rest).ok_or(rest.len())?;
        named = named.with(board);
        rest = after;
    }
    Ok(named)
}

// The number of boards and the kind of length that two fields are, or how many bytes are left from the first on that does not fit.
pub(crate) fn opening(fields: &[u8]) -> Result<(u32, Kind), usize>
    ensures { Opened fields.now result }
{
    let (boards, rest) = number_field(fields).ok_or(fields.len())?;
    // The second field is the last, so it is all that is left.
    let kind = kind_of(rest).ok_or(rest.len())?;
    Ok((boards, kind))
}
