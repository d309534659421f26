// Rulebases that are loaded from their texts.
use opa_io::MemShelf;
use opa_rulebase::load_rulebase;
use opa_tree::Rulebase;
use std::alloc::Global;
use std::test::Fail;

/// A shelf with these files.
fn shelf(alloc: Global, files: &[(&str, &str)]) -> Result<MemShelf, Fail> {
    let mut kept = Vec::new(alloc);
    for (name, text) in files {
        kept.push((
            String::from_str(alloc, name)?,
            text.as_bytes().to_vec(alloc)?,
        ))?;
    }
    Ok(MemShelf::new(alloc, kept, Vec::new(alloc), Vec::new(alloc)))
}

/// The rulebase of these files, whose main file is `main`.
pub fn load(alloc: Global, files: &[(&str, &str)]) -> Result<Rulebase, Fail> {
    let mut shelf = shelf(alloc, files)?;
    let base = load_rulebase(alloc, &mut shelf, "main")?;
    Ok(base)
}

/// The rulebase of one file.
pub fn load_text(alloc: Global, text: &str) -> Result<Rulebase, Fail> {
    load(alloc, &[("main", text)])
}
