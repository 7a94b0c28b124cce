// The whole input.
ghost use Rattle.std.specs.Prelude.{◌≡◌, ◌++◌, ℕ, List, IfOk, IfSome, IsTrue, OnOk, true, Ok};
ghost use Rattle.std.specs.Io.KnownBytes.{Consumes, IsAtEnd};

use std::alloc::{AllocError, Global};
use std::io::{ErrorKind, Read};

/// How many reads one input may take. A reader that never ends counts as one that fails.
pub(crate) const MOST_READS: u64 = 1 << 32;

/// Why an input was not read.
#[derive(Clone, Copy, Debug, PartialEq, Eq, Drop)]
pub enum InputError {
    Memory,
    Read,
}

impl From<AllocError> for InputError {
    ghost use Rattle.std.specs.Prelude.{◌≡◌};
    ghost use Rattle.mx_log.specs.declared.input.InputError.TheVariants.{Memory};

    ghost from_gives = { λ _ e. e ≡ Memory };

    fn from(_refused: AllocError) -> InputError {
        InputError::Memory
    }
}

/// All bytes of the input.
///
/// `Memory` where they find no memory, `Read` where a read fails, or where there is no end after 2^32 of them.
pub fn read_all<R: Read>(alloc: Global, input: &mut R) -> Result<Vec<u8>, InputError>
    ensures { IfOk result (λ bytes. IfSome (R.remaining input.old) (λ all. bytes.items ≡ all)) }
{
    let mut bytes = Vec::new(alloc);
    for _read in 0..MOST_READS {
        if is_at_end(input, &mut bytes)? {
            return Ok(bytes);
        }
    }
    Err(InputError::Read)
}

// Takes what one read gives. A read that was interrupted gives nothing, and another may follow.
fn is_at_end<R: Read>(input: &mut R, bytes: &mut Vec<u8>) -> Result<bool, InputError>
    ensures taken { OnOk result ((given : List ℕ) × (bytes.new.items ≡ bytes.old.items ++ given)
        × Consumes (R.remaining input.old) (R.remaining input.new) given) }
    ensures end { result ≡ Ok true → IsAtEnd (R.remaining input.new) }
{
    let mut chunk = [0u8; 16384];
    match input.read(&mut chunk) {
        Ok(0) => Ok(true),
        Ok(count) => {
            bytes.extend_from_slice(&chunk[..count])?;
            Ok(false)
        }
        Err(error) if error.kind() == ErrorKind::Interrupted => Ok(false),
        Err(_) => Err(InputError::Read),
    }
}
