// Pieces of text behind a text.
ghost use Rattle.std.specs.Prelude.{◌≡◌, ◌≤◌, ◌++◌, map, length, OnOk};
ghost use Rattle.rl_report.specs.Pieces.{joined};

use std::alloc::AllocError;

/// Appends these pieces, one after another.
pub fn push_pieces(text: &mut Vec<u8>, pieces: &[&[u8]]) -> Result<(), AllocError>
    ensures { OnOk result (text.new.items ≡ text.old.items ++ joined (map (λ piece. piece.now) pieces.now)) }
{
    for piece in pieces {
        text.extend_from_slice(piece)?;
    }
    Ok(())
}
