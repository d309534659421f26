// The tables among the files of a rulebase.
ghost use Rattle.std.specs.Prelude.{ℕ, ◌≡◌, ◌<◌, ◌^◌, length, All, IfOk};
ghost use Rattle.opa_parse.specs.declared.tables.whole.TableFile.{TableFile as TableView};
ghost use Rattle.opa_rulebase.specs.Loading.{table_files, table_in, with_listed};

use crate::files::SourceFile;
use opa_io::{List, NoMemory, front};
use opa_parse::TableFile;
use std::alloc::Global;

/// The file that has this place, if it is a table.
fn table_of(alloc: Global, place: u32, file: &SourceFile) -> Result<Option<TableFile>, NoMemory>
    ensures { IfOk result (λ t. t ≡ table_in place file.now) }
{
    if file.is_table {
        let bytes = file.text.as_str().as_bytes().to_vec(alloc)?;
        Ok(Some(TableFile {
            file: place,
            bytes: List::from_vec(bytes),
        }))
    } else {
        Ok(None)
    }
}

/// The tables with one more, if there is one.
fn with_table(
    tables: List<TableFile>,
    table: Option<TableFile>,
) -> Result<List<TableFile>, NoMemory>
    ensures { IfOk result (λ all. all ≡ with_listed tables table) }
{
    match table {
        None => Ok(tables),
        Some(table) => {
            let mut tables = tables;
            tables.push(table)?;
            Ok(tables)
        }
    }
}

/// The tables among files, with their places.
pub fn tables_of(alloc: Global, files: &[SourceFile]) -> Result<List<TableFile>, NoMemory>
    requires { length files.now < 2 ^ 32 }
    ensures tables { IfOk result (λ tables. tables ≡ table_files 0 files.now) }
    ensures placed { IfOk result (All (λ (t : TableView). t.file < length files.now)) }
{
    let mut tables = List::new(alloc);
    let mut place = 0;
    let mut rest = files;
    while let Some((file, later)) = front(rest) {
        tables = with_table(tables, table_of(alloc, place, file)?)?;
        place += 1;
        rest = later;
    }
    Ok(tables)
}
