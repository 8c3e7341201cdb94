ghost use Rattle.std.specs.Prelude.{string_bytes, OnOk};
ghost use Rattle.session.specs.Texts.{Appends, ShownFrom};

use hall::Hall;
use lengths::Length;
use std::alloc::AllocError;

// Writes a line for each board; a hall has at most 64. No `Display` of a hall: its lines are a script's way to show it.
pub(crate) fn show<L: Length>(out: &mut String, hall: &Hall<L>) -> Result<(), AllocError>
    ensures { OnOk result (Appends (ShownFrom L.Length.meaning hall.now 0) (string_bytes out.old) (string_bytes out.new)) }
{
    for board in 0..64u32 {
        let Ok(look) = hall.look(board) else {
            break;
        };
        writeln!(out, "{board} {look}")?;
    }
    Ok(())
}
