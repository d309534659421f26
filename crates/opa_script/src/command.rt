// What a line asks for.
use opa_case::ChangeCommand;
use opa_cells::InstanceId;
use opa_io::Txt;
use opa_model::{AttrId, RelId};

/// A command. A blank or a comment line asks for `Nothing`.
#[derive(Debug, Drop)]
pub enum Command {
    Nothing,
    Change(ChangeCommand),
    ShowAttr(AttrId, InstanceId),
    ShowMembers(RelId, InstanceId),
    Goals,
    Next,
    Screen,
    Report(AttrId, InstanceId, u32),
    Save(Txt),
    Load(Txt),
    Stats,
    Dismiss(u32),
}
