// How refusals are printed.
ghost use Rattle.std.specs.Prelude.{◌≡◌, ◌≢◌, IfOk};
ghost use Rattle.opa_script.specs.declared.fault.CmdFault.TheVariants as faults;
ghost use Rattle.opa_reply.specs.Refused.{refused as text_of, refused_command as command_text, refused_change as change_text};

use opa_case::Refusal;
use opa_io::NoMemory;
use opa_script::CmdFault;
use std::alloc::Global;

/// `refused: WHAT N`
pub(crate) fn refused(alloc: Global, what: &str, number: u8) -> Result<Vec<u8>, NoMemory>
    ensures { IfOk result (λ t. t.items ≡ text_of what.now number) }
{
    let text = format!(in alloc; "refused: {what} {number}\n")?;
    Ok(text.into_bytes())
}

/// The refusal of a line that is no command; there is none for want of memory.
pub fn refused_command(alloc: Global, fault: CmdFault) -> Result<Vec<u8>, NoMemory>
    ensures some { IfOk result (λ _. fault ≢ faults.NoMemory) }
    ensures text { IfOk result (λ t. t.items ≡ command_text fault) }
{
    match fault {
        CmdFault::NotACommand => refused(alloc, "command", 1),
        CmdFault::Name => refused(alloc, "command", 2),
        CmdFault::Value => refused(alloc, "command", 3),
        CmdFault::NoMemory => Err(NoMemory),
    }
}

/// The refusal of a change.
pub fn refused_change(alloc: Global, refusal: Refusal) -> Result<Vec<u8>, NoMemory>
    ensures { IfOk result (λ t. t.items ≡ change_text refusal) }
{
    let text = refused(alloc, "change", refusal.number())?;
    Ok(text)
}
