//! Texts put to the sink.
ghost use Rattle.std.specs.Prelude.{◌≡◌, ◌≤◌, IfOk, OnOk, OnErr, Err};
ghost use Rattle.bd_disk.specs.Calls.{Rose};
ghost use Rattle.bd_disk.specs.History.{clock};
ghost use Rattle.bd_files.specs.Sinks.{HandsOn, HandsPart};
ghost use Rattle.bd_model.specs.Texts.{answer_text};
ghost use Rattle.bd_session.specs.Telling.{ToldByCount};

use bd_disk::Disk;
use bd_files::{Sink, tell};
use bd_model::Answer;
use bd_script::{answer_text, short_line};
use std::alloc::Global;

/// Why a text wasn't put.
#[derive(Clone, Copy)]
pub enum Untold {
    /// The sink failed.
    Output,
    /// There was no memory for the text.
    Memory,
}

/// Puts a text, and answers the moment at which the sink took it.
pub fn put_text<D: Disk, O: Sink>(disk: &D, out: &mut O, text: &[u8]) -> Result<u64, Untold>
    requires takes { O.tells → D.tells → O.takes D D.history }
    ensures later { O.faults out.old ≤ O.faults out.new }
    ensures kept { OnOk result (O.faults out.new ≡ O.faults out.old) }
    ensures failed { OnErr result (Rose (O.faults out.old) (O.faults out.new)) }
    ensures output { OnErr result (result ≡ Err Untold.Output) }
    ensures moment { IfOk result (λ moment. D.tells → moment ≡ clock (D.history disk.now)) }
    ensures put { IfOk result (λ moment. O.tells → HandsOn D.tells moment text.now (O.handed out.old) (O.handed out.new)) }
    ensures part { OnErr result (O.tells → HandsPart text.now (O.handed out.old) (O.handed out.new)) }
{
    match tell(disk, out, text) {
        Ok(moment) => Ok(moment),
        Err(_) => Err(Untold::Output),
    }
}

/// Puts the text of an answer. Only one of many lines takes memory for it.
pub fn tell_answer<D: Disk, O: Sink>(
    alloc: Global,
    disk: &D,
    out: &mut O,
    answer: &Answer,
) -> Result<u64, Untold>
    requires takes { O.tells → D.tells → O.takes D D.history }
    ensures later { O.faults out.old ≤ O.faults out.new }
    ensures cause { ToldByCount answer.now result (O.faults out.old) (O.faults out.new) }
    ensures moment { IfOk result (λ moment. D.tells → moment ≡ clock (D.history disk.now)) }
    ensures put { IfOk result (λ moment. O.tells → HandsOn D.tells moment (answer_text answer.now) (O.handed out.old) (O.handed out.new)) }
    ensures part { OnErr result (O.tells → HandsPart (answer_text answer.now) (O.handed out.old) (O.handed out.new)) }
    ensures memory { result ≡ Err Untold.Memory → out.new ≡ out.old }
{
    if let Some(line) = short_line(answer) {
        return put_text(disk, out, line.bytes());
    }
    match answer_text(alloc, answer) {
        Ok(text) => put_text(disk, out, text.bytes()),
        Err(_) => Err(Untold::Memory),
    }
}
