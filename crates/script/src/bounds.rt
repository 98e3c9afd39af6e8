ghost use Rattle.std.specs.Prelude.{◌≡◌};
ghost use Rattle.script.specs.Bounds.{file_refusal, buffer_refusal};

use super::fault::ScriptFault;

// The greatest length of a script and of a trace file, in bytes.
pub const FILE_MOST: usize = 8_192;

// The greatest number of bytes that one line shows.
pub const SHOW_MOST: usize = 4_000;

// The least length of an output buffer, in bytes.
pub const BUFFER_LEAST: usize = 4_200;

// Refuses a script or a trace file that is too long.
pub fn check_file(bytes: &[u8]) -> Result<(), ScriptFault>
    ensures { result ≡ file_refusal bytes.now }
{
    if bytes.len() > FILE_MOST {
        Err(ScriptFault::LongFile)
    } else {
        Ok(())
    }
}

// Refuses an output buffer that is too small. Two functions, since the tests are opposite and the faults differ.
pub fn check_buffer(out: &[u8]) -> Result<(), ScriptFault>
    ensures { result ≡ buffer_refusal out.now }
{
    if out.len() < BUFFER_LEAST {
        Err(ScriptFault::SmallBuffer)
    } else {
        Ok(())
    }
}
