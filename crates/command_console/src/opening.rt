//! What comes before the frames of a host, and before the keys of a user.

ghost use Rattle.std.specs.Prelude.{◌≡◌, IfOk, length};
ghost use Rattle.std.specs.Io.KnownBytes.{Consumes};

use command_io::Failure;
use std::alloc::Global;
use std::io::Read;

/// The first bytes of a stream, so many: images, and then a script.
pub fn read_opening<R: Read + Drop>(
    alloc: Global,
    before: u64,
    reader: &mut R,
) -> Result<Vec<u8>, Failure>
    ensures { IfOk result (λ opening. (length opening.items ≡ before)
        × Consumes (R.remaining reader.old) (R.remaining reader.new) opening.items) }
{
    let Ok(count) = usize::try_from(before) else {
        return Err(Failure::OutOfMemory);
    };
    let mut bytes = vec![in alloc; 0u8; count]?;
    reader.read_exact(&mut bytes)?;
    Ok(bytes)
}
