// Levels and blocks of a text.
use opa_words::{LayoutFault, blocks};
use std::alloc::Global;
use std::test::Fail;

/// The blocks as `LINE.LEVEL:TEXT` with a bar before each block, or the fault.
fn shown(alloc: Global, text: &str) -> Result<String, Fail> {
    let mut out = String::new(alloc);
    if text.len() > 1_000_000 {
        return Ok(out);
    }
    match blocks(alloc, 7, text) {
        Ok(laid) => {
            for block in &laid {
                out.push_str("|")?;
                for line in block.lines.as_slice() {
                    let one = format!(in alloc;
                        " {}.{}:{}",
                        line.line,
                        line.level,
                        line.text.as_str()
                    )?;
                    out.push_str(one.as_str())?;
                }
            }
        }
        Err(LayoutFault::Indent(line)) => out.push_str(format!(in alloc;
            "indent {line}"
        )?.as_str())?,
        Err(LayoutFault::Limit(line)) => out.push_str(format!(in alloc; "limit {line}")?.as_str())?,
        Err(LayoutFault::NoMemory) => out.push_str("no memory")?,
    }
    Ok(out)
}

/// A text, and its blocks or the fault.
const TEXTS: [(&str, &str); 16] = [
    ("", ""),
    ("\n \n\t\n", ""),
    ("a", "| 1.0:a"),
    ("a\n", "| 1.0:a"),
    ("a\r\nb\r", "| 1.0:a| 2.0:b\r"),
    (
        "\u{feff}a b \n# c\n\n  b\n\tc\n    d\nx",
        "| 1.0:a b  4.1:b 5.1:c 6.2:d| 7.0:x",
    ),
    ("a\n\tz\n\t  b", "| 1.0:a 2.1:z 3.2:b"),
    ("a\n  z\n  \tb", "| 1.0:a 2.1:z 3.2:b"),
    ("a\n      # deep\n  b", "| 1.0:a 3.1:b"),
    ("a\n  b\n    c\n  d\ne", "| 1.0:a 2.1:b 3.2:c 4.1:d| 5.0:e"),
    ("  a", "indent 1"),
    ("#\n\n a\n  b", "indent 3"),
    ("a\n    b", "indent 2"),
    ("a\n   b", "indent 2"),
    ("a\n \tb", "indent 2"),
    ("a\n  b\n      c", "indent 3"),
];

/// The first text that is laid out otherwise than its row says.
fn first_other(alloc: Global, rows: &[(&str, &str)]) -> Result<Option<usize>, Fail> {
    for (place, (text, want)) in rows.iter().enumerate() {
        if shown(alloc, text)?.as_str() != *want {
            return Ok(Some(place));
        }
    }
    Ok(None)
}

#[test]
fn lays_out(rt: HostRuntime) -> Result<(), Fail> {
    assert_eq!(rt; first_other(rt.alloc(), &TEXTS)?, None);
    Ok(())
}

/// The text in so many copies, between two others.
fn copies(
    alloc: Global,
    front: &str,
    text: &str,
    count: usize,
    back: &str,
) -> Result<String, Fail> {
    let mut all = String::new(alloc);
    all.push_str(front)?;
    for _ in 0..count {
        all.push_str(text)?;
    }
    all.push_str(back)?;
    Ok(all)
}

/// A front, a text so many times, a back, and what is shown.
type Copies = (
    &'static str,
    &'static str,
    usize,
    &'static str,
    &'static str,
);

const LIMITS: [Copies; 7] = [
    ("a\n", "x", 65_537, "\n b", "limit 2"),
    ("a\n#", "x", 65_536, "", "limit 2"),
    ("a\n b\n", " ", 65_537, "", "indent 2"),
    ("a\n", "\t", 65, "b", "limit 2"),
    ("a\n", "\t", 64, "b", "indent 2"),
    ("\u{feff}#", "x", 65_535, "\r", "limit 1"),
    ("\u{feff}#", "x", 65_535, "\na", "| 2.0:a"),
];

/// The first file that is laid out otherwise than its row says.
fn first_over(alloc: Global, rows: &[Copies]) -> Result<Option<usize>, Fail> {
    for (place, (front, text, count, back, want)) in rows.iter().enumerate() {
        let file = copies(alloc, front, text, *count, back)?;
        if shown(alloc, file.as_str())?.as_str() != *want {
            return Ok(Some(place));
        }
    }
    Ok(None)
}

#[test]
fn keeps_the_limits(rt: HostRuntime) -> Result<(), Fail> {
    assert_eq!(rt; first_over(rt.alloc(), &LIMITS)?, None);
    Ok(())
}

#[test]
fn tells_the_file(rt: HostRuntime) -> Result<(), Fail> {
    let laid = blocks(rt.alloc(), 7, "a\n  b\nc")?;
    assert_eq!(rt; laid.len(), 2);
    assert_eq!(rt; laid[1].file, 7);
    Ok(())
}
