//! Why a stream is refused, and the lines that say so.
ghost use Rattle.std.specs.Prelude.{◌≡◌, IfOk};
ghost use Rattle.std.specs.String.{string_bytes};
ghost use Rattle.pt_report.specs.Errors.{read_name, check_name, flaw_name, refusal_error};

use nt_check::CheckKind;
use nt_read::ReadKind;
use std::alloc::{AllocError, Global};

/// What is wrong with a stream.
#[derive(Clone, Copy, Debug, PartialEq, Eq)]
pub enum Flaw {
    /// Its bytes, or that they end too early.
    Read(ReadKind),
    /// An item can't stand where it does.
    Check(CheckKind),
}

/// Why a stream is refused.
#[derive(Clone, Copy, Debug, PartialEq, Eq)]
pub struct Refusal {
    /// The offset of what is refused: of the bytes that are wrong, of the item, or of the end.
    pub at: u64,
    pub flaw: Flaw,
}

fn read_text(alloc: Global, kind: ReadKind) -> Result<String, AllocError>
    ensures { IfOk result (λ text. string_bytes text ≡ read_name kind) }
{
    let name = match kind {
        ReadKind::BadMagic => "BadMagic",
        ReadKind::BadObject => "BadObject",
        ReadKind::BadVersion => "BadVersion",
        ReadKind::BadBlock => "BadBlock",
        ReadKind::BadHead => "BadHead",
        ReadKind::BadMeta => "BadMeta",
        ReadKind::Uncompressed => "Uncompressed",
        ReadKind::TooLarge { size } => return format!(in alloc; "TooLarge {size}"),
        ReadKind::Truncated => "Truncated",
    };
    String::from_str(alloc, name)
}

fn check_text(alloc: Global, kind: CheckKind) -> Result<String, AllocError>
    ensures { IfOk result (λ text. string_bytes text ≡ check_name kind) }
{
    match kind {
        CheckKind::UnknownMetadata { id } => format!(in alloc; "UnknownMetadata {id}"),
        CheckKind::UnknownStack { id } => format!(in alloc; "UnknownStack {id}"),
        CheckKind::MetadataTwice { id } => format!(in alloc; "MetadataTwice {id}"),
        CheckKind::StackTwice { id } => format!(in alloc; "StackTwice {id}"),
    }
}

/// What is wrong, in the words of an error line.
pub fn flaw_text(alloc: Global, flaw: Flaw) -> Result<String, AllocError>
    ensures { IfOk result (λ text. string_bytes text ≡ flaw_name flaw) }
{
    match flaw {
        Flaw::Read(kind) => read_text(alloc, kind),
        Flaw::Check(kind) => check_text(alloc, kind),
    }
}

/// The error line of a refusal, with its line feed.
pub fn refusal_text(alloc: Global, refusal: &Refusal) -> Result<String, AllocError>
    ensures { IfOk result (λ text. string_bytes text ≡ refusal_error refusal.now) }
{
    let at = refusal.at;
    let flaw = flaw_text(alloc, refusal.flaw)?;
    format!(in alloc; "error: offset {at}: {flaw}\n")
}
