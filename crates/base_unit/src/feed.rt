// One record of a recording: read, applied, and its line written.
ghost use Rattle.std.specs.Prelude.{◌≡◌};
ghost use Rattle.base_unit.specs.Feed.{fed_answer, feeding};
ghost use Rattle.base_unit.specs.View.{memory_view};

use super::answers::DONE;
use super::memory::CellMemory;
use super::outs::Fed;
use answer::Refusal;
use record::{Call, LINE, fault_line, line, read};

/// Feeds a record to the cell, by its number from 1; its line goes into the front of a buffer, and
/// the rest of the buffer stays. 0 or 17, where the buffer has no room for the longest line: nothing
/// is read then. What the record or the cell refuses is no refusal of this call: it stands in `fed`.
#[unsafe(no_mangle)]
pub extern "C" fn dalgweniz_feed(
    memory: &mut CellMemory,
    number: u64,
    bytes: &[u8],
    out: &mut [u8],
    fed: &mut Fed,
) -> u8
    ensures answer { result ≡ fed_answer out.old }
    ensures after { memory_view memory.new ≡
        (feeding (memory_view memory.old) number bytes.now out.old fed.old).cell }
    ensures line { out.new ≡
        (feeding (memory_view memory.old) number bytes.now out.old fed.old).buffer }
    ensures fed { fed.new ≡
        (feeding (memory_view memory.old) number bytes.now out.old fed.old).fed }
{
    if out.len() < LINE {
        return Refusal::BufferTooShort.number();
    }
    *fed = match read(bytes, number) {
        // the input has ended: the player stops
        Ok(None) => Fed {
            stop: 1,
            ..Fed::default()
        },
        Ok(Some((event, _))) => {
            let result = memory.call(Call::from(event));
            let line = line(number, event, result, out).unwrap();
            Fed {
                line,
                ..Fed::from(result)
            }
        }
        Err(fault) => {
            let line = fault_line(number, fault.refusal, out).unwrap();
            Fed {
                line,
                ..Fed::from(fault)
            }
        }
    };
    DONE
}
