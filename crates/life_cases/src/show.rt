//! Values as lines.

use life_cells::{Bounds, CellSet};
use std::alloc::AllocError;

/// Bytes line by line, each with this before it.
pub fn show_lines(report: &mut String, before: &str, bytes: &[u8]) -> Result<(), AllocError> {
    let Ok(text) = str::from_utf8(bytes) else {
        return report.push_str("no text\n");
    };
    for line in text.lines() {
        write!(report, "{before}{line}\n")?;
    }
    if !text.is_empty() && !text.ends_with('\n') {
        report.push_str("no line feed\n")?;
    }
    Ok(())
}

/// How many cells there are, and each in (y,x) order.
pub fn show_cells(report: &mut String, name: &str, cells: &CellSet) -> Result<(), AllocError> {
    let count = cells.len();
    write!(report, "{name} {count}:")?;
    for cell in cells.cells() {
        let (x, y) = (cell.x, cell.y);
        write!(report, " {x},{y}")?;
    }
    report.push('\n')
}

/// The sides of a box: left, top, right and bottom.
pub fn show_box(report: &mut String, bounds: Bounds) -> Result<(), AllocError> {
    let Bounds {
        left,
        top,
        right,
        bottom,
    } = bounds;
    write!(report, "box {left} {top} {right} {bottom}\n")
}
