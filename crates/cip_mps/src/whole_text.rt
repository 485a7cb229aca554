//! Reading a text of free MPS that is there as a whole.
ghost use Rattle.std.specs.Prelude.{MatchResult};
ghost use Rattle.cip_text_rules.specs.MpsOutcome.{HasProgram};
ghost use Rattle.cip_mps.specs.MpsReaders.{IsFaultOf};

use crate::Program;
use crate::kinds::MpsKind;
use crate::reader::MpsReader;
use cip_text::ReadFault;
use std::alloc::Global;

/// The program of a text of free MPS, or its first fault: that of the first line that breaks a rule, with the least
/// kind that it breaks. A text of more than 67,108,864 bytes is looked at as far as the first byte too many. `NoMemory`
/// comes where a growth was refused.
pub fn read_mps(alloc: Global, text: &[u8]) -> Result<Program, ReadFault<MpsKind>>
    ensures { MatchResult result (λ program. HasProgram text.now program) (IsFaultOf text.now) }
{
    let mut reader = MpsReader::new(alloc);
    match reader.feed(text) {
        Ok(()) => reader.finish(),
        Err(fault) => {
            drop(reader);
            Err(fault)
        }
    }
}
