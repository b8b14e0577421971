// What the programs write their output with: the front of a buffer, and the line of a refusal. It rests on `report_text`. Every function
// here is for `to_qdimacs`, `groups` and `group_file`.
#![tactic(auto)]

use refusal::{Fault, Refusal};
use report_text::render_refusal;
use std::io;
use std::io::{Print, Write};

// Writes the first k bytes, if there are so many.
pub fn write_front(rt: &impl Print, bytes: &[u8], k: usize) -> io::Result<()> {
    io::writer(rt).write_all(bytes.get(..k).unwrap_or(&[]))
}

// The line of a refused file.
pub fn write_fault(rt: &impl Print, fault: Fault) -> io::Result<()> {
    let mut line = [0u8; 64];
    let k = render_refusal(fault, &mut line);
    write_front(rt, &line, k)
}

// The line of a refused call: `refused 2 at 5` where the file is refused, `refused 11` by a reason of the call's own.
pub fn write_refusal(rt: &impl Print, refusal: Refusal) -> io::Result<()> {
    match refusal {
        Refusal::InFile(fault) => write_fault(rt, fault),
        Refusal::InCall(reason) => {
            let number = u8::from(reason);
            println!(rt; "refused {number}")
        }
    }
}
