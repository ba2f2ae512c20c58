//! Writing the notes of a run.
ghost use Rattle.std.specs.Prelude.{IfErr, OnErr, OnOk};
ghost use Rattle.std.specs.Io.KnownBytes.{Appends};
ghost use Rattle.kdc_prelude.specs.Printed.{AppendsFront};
ghost use Rattle.kdc_frames.specs.Notes.{leave_note, note_line, refusal_line};
ghost use Rattle.kdc_run.specs.Causes.{HasCount, IsWriting, is_out};

use crate::served::RunFault;
use dir_records::DirRefusal;
use kb_base::{DeviceFault, Sink, write_whole};
use kdc_frames::{Leave, push_leave, push_note, push_refusal};
use std::alloc::Global;
use tgs_core::Note;

/// Writes the note of a request.
pub(crate) fn write_note<O: Sink>(alloc: Global, out: &mut O, note: Note) -> Result<(), RunFault>
    ensures ok { OnOk result (Appends (O.held out.old) (O.held out.new) (note_line note)) }
    ensures err { OnErr result (AppendsFront (O.held out.old) (O.held out.new) (note_line note)) }
    ensures kind { IfErr result IsWriting }
    ensures cause { HasCount is_out (O.faults out.old) (O.faults out.new) result }
{
    let mut text = String::new(alloc);
    push_note(&mut text, note)?;
    write_text(out, text.as_str())
}

/// Writes the note of a batch of changes that is refused.
pub(crate) fn write_refusal<O: Sink>(
    alloc: Global,
    out: &mut O,
    refusal: DirRefusal,
) -> Result<(), RunFault>
    ensures ok { OnOk result (Appends (O.held out.old) (O.held out.new) (refusal_line refusal)) }
    ensures err { OnErr result (AppendsFront (O.held out.old) (O.held out.new) (refusal_line refusal)) }
    ensures kind { IfErr result IsWriting }
    ensures cause { HasCount is_out (O.faults out.old) (O.faults out.new) result }
{
    let mut text = String::new(alloc);
    push_refusal(&mut text, refusal)?;
    write_text(out, text.as_str())
}

/// Writes the note of a caller, where it is left before its end.
pub(crate) fn write_leave<O: Sink>(
    alloc: Global,
    out: &mut O,
    leave: Option<Leave>,
) -> Result<(), RunFault>
    ensures ok { OnOk result (Appends (O.held out.old) (O.held out.new) (leave_note leave)) }
    ensures err { OnErr result (AppendsFront (O.held out.old) (O.held out.new) (leave_note leave)) }
    ensures kind { IfErr result IsWriting }
    ensures cause { HasCount is_out (O.faults out.old) (O.faults out.new) result }
{
    let Some(leave) = leave else {
        return Ok(());
    };
    let mut text = String::new(alloc);
    push_leave(&mut text, leave)?;
    write_text(out, text.as_str())
}

fn write_text<O: Sink>(out: &mut O, text: &str) -> Result<(), RunFault>
    ensures ok { OnOk result (Appends (O.held out.old) (O.held out.new) text.now) }
    ensures err { OnErr result (AppendsFront (O.held out.old) (O.held out.new) text.now) }
    ensures kind { IfErr result IsWriting }
    ensures cause { HasCount is_out (O.faults out.old) (O.faults out.new) result }
{
    match write_whole(out, text.as_bytes()) {
        Ok(()) => Ok(()),
        Err(DeviceFault::Failed) => Err(RunFault::Out),
        Err(DeviceFault::NoMemory) => Err(RunFault::NoMemory),
    }
}
