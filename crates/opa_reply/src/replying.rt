// What a line asks for.
ghost use Rattle.std.specs.Prelude.{◌≡◌, IfOk, IfErr};
ghost use Rattle.opa_script.specs.Laws.{IsInRange};
ghost use Rattle.opa_reply.specs.Replies.{IsAsked, IsNotAsked};

use crate::lines::{is_too_long, text_of};
use opa_model::Model;
use opa_script::{CmdFault, Command, commands_are_in_range, is_well_formed, read_command};
use std::alloc::Global;

/// The command that a line is.
#[tactic(auto, using(crate::proofs::ReadLaws::asking))]
pub(crate) fn asked(alloc: Global, model: &Model, line: &[u8]) -> Result<Command, CmdFault>
    ensures ok { IfOk result (IsAsked model.now line.now) }
    ensures range { IfOk result (IsInRange model.now) }
    ensures fault { IfErr result (IsNotAsked model.now line.now) }
{
    if is_too_long(line) {
        return Err(CmdFault::NotACommand);
    }
    commands_are_in_range();
    match read_command(alloc, model, text_of(line)) {
        Err(fault) => Err(fault),
        Ok(command) => {
            is_well_formed(&command);
            Ok(command)
        }
    }
}
