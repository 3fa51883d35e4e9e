// Keeps the data from being markup where it stands in a page: the sign `<` is written as JSON's escape of it (own). In JSON it stands in
// strings alone.
ghost use Rattle.std.specs.Prelude.{ℕ, ◌≡◌, ◌++◌, List, OnOk};
ghost use Rattle.rideview.specs.Safe.{HasNoMarkup, safe};

use std::alloc::AllocError;

/// Adds a text with each `<` escaped.
pub fn add_safe(out: &mut Vec<u8>, text: &[u8]) -> Result<(), AllocError>
    ensures { OnOk result (out.new.items ≡ out.old.items ++ safe text.now) }
{
    for byte in text {
        if *byte == b'<' {
            out.extend_from_slice(b"\\u003c")?;
        } else {
            out.push(*byte)?;
        }
    }
    Ok(())
}

/// No `<` is left.
pub fn safe_text_is_no_markup()
    ensures { (text : List ℕ) → HasNoMarkup (safe text) }
{}
