//! The commands `events`, `convert` and `page`.
ghost use Rattle.std.specs.Prelude.{◌≡◌, ◌≢◌, ◌⊎◌, ◌<◌, ◌^◌, ℕ, [], List, IfOk, IfErr, OnOk, OnErr, Err};
ghost use Rattle.pt_io.specs.Faults.{HasRisen};
ghost use Rattle.pt_command.specs.declared.limits.TheConstants.{PIECE_BYTES};
ghost use Rattle.pt_command.specs.declared.end.End.TheVariants as ends;
ghost use Rattle.pt_command.specs.Input.{ReadWhole};
ghost use Rattle.pt_command.specs.Says.{TookText, BrokeOff, Says, SaysLine};
ghost use Rattle.pt_lines.specs.declared.form.Form.TheVariants as forms;
ghost use Rattle.pt_lines.specs.Around.{opened, tail_of};
ghost use Rattle.pt_events.specs.Found.{error_line};
ghost use Rattle.pt_events.specs.Command.{Lists, SoFar};
ghost use Rattle.pt_events.specs.state.Read.{HasRead, used};
ghost use Rattle.pt_events.specs.state.Ends.{EndsBytes};

use crate::reading::Reading;
use pt_command::limits::PIECE_BYTES;
use pt_command::{End, say};
use pt_io::{Failed, Sink, Source};
use pt_lines::{Form, put_error, put_error_page, put_error_tail};
use pt_report::{Refusal, flaw_text, refusal_text};
use std::alloc::{AllocError, Global};

/// Reads a stream from `input` to its end, and writes the lines of its events, its points and of what is lost to `output` as
/// it reads them: those of a piece of the input in one write, and in writes of their own what stands before them and behind
/// them in this form. Where the stream is cut or wrong, one error line follows the lines of what stands before that place.
pub fn write_events<I: Source, O: Sink>(
    alloc: Global,
    form: Form,
    input: &mut I,
    output: &mut O,
) -> End
    ensures { Lists I.Source O.Sink form input.old input.new output.old output.new result }
{
    let mut reading = Reading::new(alloc);
    match write_pieces(alloc, form, input, &mut reading, output) {
        Ok(()) => write_end(alloc, form, &reading, output),
        Err(end) => end,
    }
}

// Writes the lines of all that the input gives, up to its end, behind what stands before them.
fn write_pieces<I: Source, O: Sink>(
    alloc: Global,
    form: Form,
    input: &mut I,
    reading: &mut Reading,
    output: &mut O,
) -> Result<(), End>
    requires fresh { HasRead form [] [] reading.old }
    requires unused { used reading.old ≡ 0 }
    ensures all { OnOk result ((bytes lines : List ℕ) × HasRead form bytes lines reading.new
        × ReadWhole I.Source input.old input.new bytes
        × TookText O.Sink output.old output.new (opened form lines)) }
    ensures end { IfErr result (λ end. (end ≡ ends.ReadFault) ⊎ (end ≡ ends.WriteFault) ⊎ (end ≡ ends.OutOfMemory)) }
    ensures unread { result ≡ Err ends.ReadFault → (text : List ℕ)
        × SoFar I.Source form input.old input.new 0 text × TookText O.Sink output.old output.new text }
    ensures memory { result ≡ Err ends.OutOfMemory → (text : List ℕ)
        × SoFar I.Source form input.old input.new PIECE_BYTES text × TookText O.Sink output.old output.new text }
    ensures part { result ≡ Err ends.WriteFault → (text : List ℕ)
        × SoFar I.Source form input.old input.new 0 text × BrokeOff O.Sink output.old output.new text }
    ensures told { O.tells_taken output.new ≡ O.tells_taken output.old }
    ensures fault { result ≡ Err ends.ReadFault
        → HasRisen (I.read_faults input.old) (I.read_faults input.new) }
    ensures read { result ≢ Err ends.ReadFault → I.read_faults input.new ≡ I.read_faults input.old }
{
    let mut buffer = [0; PIECE_BYTES];
    let mut lines = Vec::new(alloc);
    let mut is_first = true;
    write_head(form, output)?;
    loop {
        let count = match input.read(&mut buffer) {
            Ok(count) => count,
            Err(Failed) => return Err(End::ReadFault),
        };
        if count == 0 {
            return Ok(());
        }
        reading.take(form, &buffer[..count], &mut lines)?;
        let more = lines.as_slice();
        write_lines(form.shown(is_first, more), output)?;
        is_first &= more.is_empty();
        lines.clear();
    }
}

// Writes what stands before the lines, where something does.
fn write_head<O: Sink>(form: Form, output: &mut O) -> Result<(), End>
    ensures ok { OnOk result (TookText O.Sink output.old output.new (opened form [])) }
    ensures told { O.tells_taken output.new ≡ O.tells_taken output.old }
    ensures err { IfErr result (λ end. (end ≡ ends.WriteFault) × BrokeOff O.Sink output.old output.new (opened form [])) }
{
    write_lines(form.head().as_bytes(), output)
}

// Writes some lines, where there are any.
fn write_lines<O: Sink>(lines: &[u8], output: &mut O) -> Result<(), End>
    ensures ok { OnOk result (TookText O.Sink output.old output.new lines.now) }
    ensures told { O.tells_taken output.new ≡ O.tells_taken output.old }
    ensures err { IfErr result (λ end. (end ≡ ends.WriteFault) × BrokeOff O.Sink output.old output.new lines.now) }
{
    if lines.is_empty() {
        return Ok(());
    }
    match output.write(lines) {
        Ok(()) => Ok(()),
        Err(Failed) => Err(End::WriteFault),
    }
}

// Says what is wrong with the bytes that were read, or what stands behind their lines.
fn write_end<O: Sink>(alloc: Global, form: Form, reading: &Reading, output: &mut O) -> End
    ensures { (bytes lines : List ℕ) → HasRead form bytes lines reading.now
        → EndsBytes O.Sink form output.old output.new bytes lines result }
{
    match reading.end() {
        Ok(None) => write_tail(form, output),
        Ok(Some(refusal)) => write_error(alloc, form, &refusal, output),
        Err(AllocError) => End::OutOfMemory,
    }
}

// Writes what stands behind the lines of a whole stream, where something does.
fn write_tail<O: Sink>(form: Form, output: &mut O) -> End
    ensures { Says O.Sink output.old output.new (tail_of form) ends.Done result }
{
    match write_lines(form.tail().as_bytes(), output) {
        Ok(()) => End::Done,
        Err(end) => end,
    }
}

// Writes the error line of a refusal.
fn write_error<O: Sink>(alloc: Global, form: Form, refusal: &Refusal, output: &mut O) -> End
    ensures { SaysLine O.Sink output.old output.new (error_line form refusal.now) (ends.Refused refusal.now.at) result }
{
    let end = End::Refused { at: refusal.at };
    match error_text(alloc, form, refusal) {
        Ok(line) => say(output, line.as_slice(), end),
        Err(AllocError) => End::OutOfMemory,
    }
}

// The error line of a refusal, with its line feed.
fn error_text(alloc: Global, form: Form, refusal: &Refusal) -> Result<Vec<u8>, AllocError>
    ensures { IfOk result (λ line. line.items ≡ error_line form refusal.now) }
{
    match form {
        Form::Lines => Ok(refusal_text(alloc, refusal)?.into_bytes()),
        Form::Json => error_object(alloc, refusal),
        Form::Chromium => error_end(alloc, refusal),
        Form::Page => error_page(alloc, refusal),
    }
}

// The error line as an object.
fn error_object(alloc: Global, refusal: &Refusal) -> Result<Vec<u8>, AllocError>
    ensures { IfOk result (λ line. line.items ≡ error_line forms.Json refusal.now) }
{
    let words = flaw_text(alloc, refusal.flaw)?;
    let mut line = Vec::new(alloc);
    put_error(&mut line, refusal.at, &words)?;
    Ok(line)
}

// It behind other objects, and their ends.
fn error_end(alloc: Global, refusal: &Refusal) -> Result<Vec<u8>, AllocError>
    ensures { IfOk result (λ line. line.items ≡ error_line forms.Chromium refusal.now) }
{
    let words = flaw_text(alloc, refusal.flaw)?;
    let mut line = Vec::new(alloc);
    put_error_tail(&mut line, refusal.at, &words)?;
    Ok(line)
}

// It in a page, behind other objects, and the end of the page.
fn error_page(alloc: Global, refusal: &Refusal) -> Result<Vec<u8>, AllocError>
    ensures { IfOk result (λ line. line.items ≡ error_line forms.Page refusal.now) }
{
    let words = flaw_text(alloc, refusal.flaw)?;
    let mut line = Vec::new(alloc);
    put_error_page(&mut line, refusal.at, &words)?;
    Ok(line)
}
