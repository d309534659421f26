// A shelf with one file.
ghost use Rattle.std.specs.Prelude.{◌≡◌, Some, IfOk};
ghost use Rattle.opa_io.specs.Memory.{entry_of};
ghost use Rattle.opa_rules.specs.Printing.Shelves.{one_file};

use opa_io::{MemShelf, NoMemory, Shelf};
use std::alloc::Global;

fn file_of(alloc: Global, name: &str, text: &[u8]) -> Result<(String, Vec<u8>), NoMemory>
    ensures { IfOk result (λ f. entry_of f ≡ (name.now, text.now)) }
{
    Ok((String::from_str(alloc, name)?, text.to_vec(alloc)?))
}

#[tactic(auto, using(crate::proofs::ShelfLaws::one_filed))]
pub(crate) fn shelf_with(alloc: Global, name: &str, text: &[u8]) -> Result<MemShelf, NoMemory>
    ensures { IfOk result (λ s. ⟦<MemShelf as Shelf>⟧.files s ≡ Some (one_file name.now text.now)) }
{
    let mut files = Vec::new(alloc);
    files.push(file_of(alloc, name, text)?)?;
    Ok(MemShelf::new(alloc, files, Vec::new(alloc), Vec::new(alloc)))
}
