//! Reading a text of a point that is there as a whole.
ghost use Rattle.std.specs.Prelude.{MatchResult};
ghost use Rattle.cip_text_rules.specs.LineTexts.{HasResult};
ghost use Rattle.cip_text_rules.specs.PointRules.{point_reading};
ghost use Rattle.cip_input.specs.PointReaders.{IsFaultOf};

use crate::kinds::PointKind;
use crate::reader::PointReader;
use cip_frac::Frac;
use cip_model::Program;
use cip_text::ReadFault;
use std::alloc::Global;

/// The point that a text gives for a program, a value for each of its columns; else the first fault of the text: that
/// of the first line that breaks a rule, with the least kind that it breaks. A text of more than 67,108,864 bytes is
/// looked at as far as the first byte too many. `NoMemory` comes where a growth was refused.
pub fn point_of_text(
    alloc: Global,
    text: &[u8],
    program: &Program,
) -> Result<Vec<Frac>, ReadFault<PointKind>>
    ensures { MatchResult result (λ point. HasResult (point_reading program.now) text.now point.items)
        (IsFaultOf program.now text.now) }
{
    let mut reader = PointReader::new((alloc, program));
    match reader.feed(text) {
        Ok(()) => reader.finish(),
        Err(fault) => {
            drop(reader);
            Err(fault)
        }
    }
}
