//! Scripts: from bytes to tables, the commands of sessions and a schedule, or the first bad line.
#![tactic(auto)]

ghost use Rattle.script_text.specs.Scripts.{Tells, script_in};

mod commands;
mod draft;
mod fault;
mod forms;
pub mod laws;
mod reader;

pub use command_set::Script;
pub use fault::ScriptFault;
use fault::fault_at;
use reader::Reader;
pub use script_words::fault::LineFault;
use script_words::lines::{content_of, cut_line};
use std::alloc::Global;

/// The script that the bytes spell.
///
/// Where they spell none, the fault names the first bad line, and why it is bad. Want of memory may come at any line.
pub fn parse_script(alloc: Global, bytes: &[u8]) -> Result<Script, ScriptFault>
    ensures { Tells result (script_in bytes.now) }
{
    let mut reader = Reader::new(alloc);
    let mut line = 1u32;
    let mut rest = bytes;
    'lines: while !rest.is_empty() {
        let (text, others) = cut_line(rest);
        match reader.add_words(alloc, content_of(text)) {
            Ok(()) => {}
            Err(refusal) => return Err(fault_at(line, refusal)),
        }
        line = line.saturating_add(1);
        rest = others;
    }
    Ok(reader.into_script())
}
