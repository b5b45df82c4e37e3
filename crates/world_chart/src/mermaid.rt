//! A chart as a sequence diagram of Mermaid.

ghost use Rattle.std.specs.Prelude.{◌≡◌, ◌-◌, ◌++◌, IfOk, OnOk, flat_map, length, map, string_bytes};
ghost use Rattle.world_chart.specs.Diagrams.{mermaid_text, participants, row_line};

use crate::rows::{Row, Shape};
use std::alloc::{AllocError, Global};

/// The chart as a sequence diagram of Mermaid.
pub(crate) fn mermaid(alloc: Global, names: &[String], rows: &[Row]) -> Result<String, AllocError>
    ensures { IfOk result (λ text. string_bytes text ≡ mermaid_text (map (λ name. string_bytes name) names.now) rows.now) }
{
    let mut text = String::new(alloc);
    text.push_str("sequenceDiagram\n")?;
    push_lanes(alloc, &mut text, names)?;
    text.push_str("    rect rgb(238, 244, 255)\n")?;
    push_rows(alloc, &mut text, rows, names.len().saturating_sub(1))?;
    text.push_str("    end\n")?;
    Ok(text)
}

/// Adds the lanes.
fn push_lanes(alloc: Global, text: &mut String, names: &[String]) -> Result<(), AllocError>
    ensures { OnOk result (string_bytes text.new ≡ string_bytes text.old ++ participants 0 (map (λ name. string_bytes name) names.now)) }
{
    let mut lane: usize = 0;
    for name in names {
        text.push_str(&format!(in alloc; "    participant l{lane} as {name}\n")?)?;
        lane += 1;
    }
    Ok(())
}

/// Adds the rows; the last lane is this one.
fn push_rows(alloc: Global, text: &mut String, rows: &[Row], last: usize) -> Result<(), AllocError>
    ensures { OnOk result (string_bytes text.new ≡ string_bytes text.old ++ flat_map (λ row. row_line last row.shape (string_bytes row.words)) rows.now) }
{
    for row in rows {
        text.push_str(&row_text(alloc, row, last)?)?;
    }
    Ok(())
}

/// The line of a row.
fn row_text(alloc: Global, row: &Row, last: usize) -> Result<String, AllocError>
    ensures { IfOk result (λ line. string_bytes line ≡ row_line last row.now.shape (string_bytes row.now.words)) }
{
    let words = row.words.as_str();
    match row.shape {
        Shape::Arrow { from, to } => format!(in alloc; "    l{from}->>l{to}: {words}\n"),
        Shape::Cross { from, to } => format!(in alloc; "    l{from}-xl{to}: {words}\n"),
        Shape::Note { lane } | Shape::Alarm { lane } => {
            format!(in alloc; "    Note over l{lane}: {words}\n")
        }
        Shape::Fold | Shape::Step => format!(in alloc; "    Note over l0,l{last}: {words}\n"),
        Shape::View { view } => {
            let shade = if view.0 % 2 == 0 {
                "238, 244, 255"
            } else {
                "255, 246, 230"
            };
            format!(in alloc; "    end\n    rect rgb({shade})\n    Note over l0,l{last}: {words}\n")
        }
    }
}
