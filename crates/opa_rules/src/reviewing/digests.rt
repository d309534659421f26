// A number for each tree: equal trees have equal ones.
ghost use Rattle.std.specs.Prelude.{◌≡◌, fold, map};
ghost use Rattle.opa_rules.specs.Reviewing.Digests as meant;

use opa_tree::{Expr, Row};
use opa_value::Value;

/// One number of two, in which their order counts.
#[tactic(auto, unfolding(crate::specs::Reviewing::Digests::mixed))]
fn mixed(a: u64, b: u64) -> u64
    ensures { result ≡ meant.mixed a b }
{
    a.wrapping_mul(11_400_714_819_323_198_485).wrapping_add(b)
}

/// Of a text.
fn of_bytes(bytes: &[u8]) -> u64
    ensures { result ≡ fold meant.mixed 5 bytes.now }
{
    let mut all = 5;
    for byte in bytes {
        all = mixed(all, *byte as u64);
    }
    all
}

fn of_value(value: &Value) -> u64
    ensures { result ≡ meant.value_digest value.now }
{
    match value {
        Value::Unknown => 1,
        Value::Uncertain => 2,
        Value::Bool(holds) => mixed(3, *holds as u64),
        Value::Num(number) => mixed(4, number.count().cast_unsigned()),
        Value::Words(text) => of_bytes(text.as_str().as_bytes()),
        Value::Day(day) => mixed(6, *day as u64),
    }
}

/// Of a tree.
#[cycle(walk)]
#[tactic(auto, using(crate::proofs::reviewing::DigestLaws::digest_laws))]
pub(crate) fn digest(expr: &Expr) -> u64
    ensures { result ≡ meant.digest expr.now }
{
    match expr {
        Expr::Const(value) => of_value(value),
        Expr::Attr(attr) => mixed(7, attr.0 as u64),
        Expr::All(parts) => of_parts(8, parts.as_slice()),
        Expr::Any(parts) => of_parts(9, parts.as_slice()),
        Expr::Not(part) => mixed(10, digest(part.get())),
        Expr::Op(kind, parts) => of_parts(mixed(11, *kind as u64), parts.as_slice()),
        Expr::Certain(part) => mixed(12, digest(part.get())),
        Expr::Known(part) => mixed(13, digest(part.get())),
        Expr::Over(quant, rel, parts) => of_parts(
            mixed(mixed(14, *quant as u64), rel.0 as u64),
            parts.as_slice(),
        ),
        Expr::Window(kind, parts) => of_parts(mixed(15, *kind as u64), parts.as_slice()),
        Expr::Rolling(always, days, part) => mixed(
            mixed(mixed(16, *always as u64), *days as u64),
            digest(part.get()),
        ),
        Expr::Table(rows, last) => mixed(of_rows(17, rows.as_slice()), digest(last.get())),
    }
}

/// Of a number and trees.
#[cycle(walk)]
fn of_parts(start: u64, parts: &[Expr]) -> u64
    ensures { result ≡ fold meant.mixed start (map meant.digest parts.now) }
{
    let mut all = start;
    for part in parts {
        all = mixed(all, digest(part));
    }
    all
}

/// Of a number and rows.
#[cycle(walk)]
fn of_rows(start: u64, rows: &[Row]) -> u64
    ensures { result ≡ fold meant.mixed start (map meant.row_digest rows.now) }
{
    let mut all = start;
    for row in rows {
        all = mixed(all, mixed(digest(&row.cond), digest(&row.value)));
    }
    all
}
