// The calls that need no table, for C: a frame judged or read, an LLDPDU read, an announcement written.
// Each is the library's call of its name, with its promise.
ghost use Rattle.exports.specs.Calls.{Judges, TellsFrame, TellsLldpdu, Writes};

// Refusals 1, 3 to 6.
#[unsafe(no_mangle)]
pub extern "C" fn tambolune_judge(frame: &[u8], answer: &mut [u8]) -> u8
    ensures { Judges frame.now answer.old answer.new result }
{
    exports::tambolune_judge(frame, answer)
}

// Refusals 1, 3 to 6.
#[unsafe(no_mangle)]
pub extern "C" fn tambolune_read(frame: &[u8], answer: &mut [u8], description: &mut [u8]) -> u8
    ensures { TellsFrame frame.now answer.old description.old answer.new description.new result }
{
    exports::tambolune_read(frame, answer, description)
}

// Refusals 1, 4 to 6.
#[unsafe(no_mangle)]
pub extern "C" fn tambolune_read_lldpdu(
    lldpdu: &[u8],
    answer: &mut [u8],
    description: &mut [u8],
) -> u8
    ensures { TellsLldpdu lldpdu.now answer.old description.old answer.new description.new result }
{
    exports::tambolune_read_lldpdu(lldpdu, answer, description)
}

// Refusals 1, 9, 10. The answer's length is tested before anything is written (X2).
#[unsafe(no_mangle)]
pub extern "C" fn tambolune_write(
    description: &[u8],
    text: &[u8],
    output: &mut [u8],
    answer: &mut [u8],
) -> u8
    ensures { Writes description.now text.now output.old answer.old output.new answer.new result }
{
    exports::tambolune_write(description, text, output, answer)
}
