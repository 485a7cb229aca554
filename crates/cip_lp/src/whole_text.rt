//! Reading an LP text that is there as a whole.
ghost use Rattle.std.specs.Prelude.{MatchResult};
ghost use Rattle.cip_text_rules.specs.LpOutcome.{HasLpProgram};
ghost use Rattle.cip_lp.specs.LpReaders.{IsFaultOf};

use crate::Program;
use crate::kinds::LpKind;
use crate::reader::LpReader;
use cip_text::ReadFault;
use std::alloc::Global;

/// The program of an LP text, or its first fault: that of the first line that breaks a rule, with the least
/// kind that it breaks. A text of more than 67,108,864 bytes is looked at as far as the first byte too many. `NoMemory`
/// comes where a growth was refused.
pub fn read_lp(alloc: Global, text: &[u8]) -> Result<Program, ReadFault<LpKind>>
    ensures { MatchResult result (λ program. HasLpProgram text.now program) (IsFaultOf text.now) }
{
    let mut reader = LpReader::new(alloc);
    match reader.feed(text) {
        Ok(()) => reader.finish(),
        Err(fault) => {
            drop(reader);
            Err(fault)
        }
    }
}
