//! A chart as an SVG.

use crate::rows::{Row, Shape};
use std::alloc::{AllocError, Global};

/// How far two lanes are apart.
const LANE: usize = 230;

/// Where the first lane stands.
const LEFT: usize = 130;

/// The height of a row.
const ROW: usize = 22;

/// Where the rows begin.
const TOP: usize = 44;

/// The forms and colours of all charts.
const STYLE: &str = "\
<style>
text { font: 11px sans-serif; text-anchor: middle; fill: #222 }
.name { font-weight: bold; font-size: 13px }
.lane { stroke: #bbb }
.view { fill: #555; font-weight: bold }
.step { stroke: #ccd; stroke-dasharray: 2 3 }
.begun { fill: #667; text-anchor: start }
.note { fill: #fff; stroke: #999 }
.alarm { fill: #fde8e8; stroke: #c33 }
.alarmed { fill: #a11 }
.lost { stroke: #c33; stroke-dasharray: 4 3 }
.message { stroke: #456 }
.request { stroke: #7a3e9d }
.pre-prepare { stroke: #1b6ec2 }
.prepare { stroke: #1f8a70 }
.commit { stroke: #c26a1b }
.reply { stroke: #7a3e9d }
.checkpoint { stroke: #777 }
.view-change, .new-view { stroke: #b0216f }
line { stroke-width: 1.3 }
</style>
<defs><marker id=\"head\" viewBox=\"0 0 8 8\" refX=\"8\" refY=\"4\" markerWidth=\"7\" markerHeight=\"7\" orient=\"auto\"><path d=\"M0 0 L8 4 L0 8 z\" fill=\"context-stroke\"/></marker></defs>
";

/// The chart as an SVG that stands on its own.
pub(crate) fn picture(alloc: Global, names: &[String], rows: &[Row]) -> Result<String, AllocError> {
    let width = x_of(names.len().saturating_sub(1)).saturating_add(LEFT);
    let bottom = y_of(rows.len());
    let height = bottom.saturating_add(ROW);
    let mut text = String::new(alloc);
    text.push_str(&format!(in alloc;
        "<svg xmlns=\"http://www.w3.org/2000/svg\" width=\"{width}\" height=\"{height}\" viewBox=\"0 0 {width} {height}\">\n"
    )?)?;
    text.push_str(STYLE)?;
    text.push_str(&format!(in alloc;
        "<rect width=\"{width}\" height=\"{height}\" fill=\"#fff\"/>\n"
    )?)?;
    text.push_str(&shades(alloc, rows, width)?)?;
    text.push_str(&lanes(alloc, names, bottom)?)?;
    let mut index: usize = 0;
    for row in rows {
        text.push_str(&row_text(alloc, row, y_of(index), width)?)?;
        index = index.saturating_add(1);
    }
    text.push_str("</svg>\n")?;
    Ok(text)
}

/// The middle of a lane.
fn x_of(lane: usize) -> usize {
    LEFT.saturating_add(LANE.saturating_mul(lane))
}

/// The line on which a row stands.
fn y_of(row: usize) -> usize {
    TOP.saturating_add(ROW.saturating_mul(row.saturating_add(1)))
}

/// The ground of each view, the first one's from the top on.
fn shades(alloc: Global, rows: &[Row], width: usize) -> Result<String, AllocError> {
    let mut text = String::new(alloc);
    let mut top = TOP;
    let mut view = 0;
    let mut index: usize = 0;
    for row in rows {
        if let Shape::View { view: next } = row.shape {
            let end = y_of(index).saturating_sub(ROW / 2);
            text.push_str(&shade(alloc, view, top, end, width)?)?;
            top = end;
            view = next.0;
        }
        index = index.saturating_add(1);
    }
    text.push_str(&shade(alloc, view, top, y_of(index), width)?)?;
    Ok(text)
}

fn shade(
    alloc: Global,
    view: u32,
    top: usize,
    end: usize,
    width: usize,
) -> Result<String, AllocError> {
    let colour = if view % 2 == 0 { "#eef4ff" } else { "#fff6e6" };
    let height = end.saturating_sub(top);
    format!(in alloc;
        "<rect y=\"{top}\" width=\"{width}\" height=\"{height}\" fill=\"{colour}\"/>\n"
    )
}

/// The lanes with their names.
fn lanes(alloc: Global, names: &[String], bottom: usize) -> Result<String, AllocError> {
    let mut text = String::new(alloc);
    let mut lane: usize = 0;
    for name in names {
        let x = x_of(lane);
        text.push_str(&format!(in alloc;
            "<text class=\"name\" x=\"{x}\" y=\"24\">{name}</text><line class=\"lane\" x1=\"{x}\" y1=\"34\" x2=\"{x}\" y2=\"{bottom}\"/>\n"
        )?)?;
        lane = lane.saturating_add(1);
    }
    Ok(text)
}

/// A row at its line.
fn row_text(alloc: Global, row: &Row, y: usize, width: usize) -> Result<String, AllocError> {
    let words = row.words.as_str();
    match row.shape {
        Shape::Arrow { from, to } => arrow(alloc, words, kind_of(words), x_of(from), x_of(to), y),
        Shape::Cross { from, to } => cross(alloc, words, x_of(from), x_of(to), y),
        Shape::Note { lane } => note(alloc, words, "note", x_of(lane), y, width),
        Shape::Alarm { lane } => note(alloc, words, "alarm", x_of(lane), y, width),
        Shape::Fold => fold(alloc, words, y, width),
        Shape::Step => step(alloc, words, y, width),
        Shape::View { .. } => {
            let x = width / 2;
            format!(in alloc; "<text class=\"view\" x=\"{x}\" y=\"{y}\">{words}</text>\n")
        }
    }
}

/// The words of many messages in a box over all lanes.
fn fold(alloc: Global, words: &str, y: usize, picture: usize) -> Result<String, AllocError> {
    let left = LEFT / 2;
    let width = picture.saturating_sub(LEFT);
    let middle = picture / 2;
    let top = y.saturating_sub(13);
    format!(in alloc;
        "<rect class=\"note\" x=\"{left}\" y=\"{top}\" width=\"{width}\" height=\"17\" rx=\"4\"/><text x=\"{middle}\" y=\"{y}\">{words}</text>\n"
    )
}

/// The words of a step that begins, at the edge, over a line across the picture.
fn step(alloc: Global, words: &str, y: usize, picture: usize) -> Result<String, AllocError> {
    let below = y.saturating_add(4);
    format!(in alloc;
        "<line class=\"step\" x1=\"0\" y1=\"{below}\" x2=\"{picture}\" y2=\"{below}\"/><text class=\"begun\" x=\"6\" y=\"{y}\">{words}</text>\n"
    )
}

/// The kind of a message, the first of its words.
fn kind_of(words: &str) -> &str {
    match words.split_once(' ') {
        Some((kind, _)) => kind,
        None => "message",
    }
}

fn arrow(
    alloc: Global,
    words: &str,
    kind: &str,
    from: usize,
    to: usize,
    y: usize,
) -> Result<String, AllocError> {
    let label = label(alloc, words, from, to, y)?;
    format!(in alloc;
        "<line class=\"message {kind}\" x1=\"{from}\" y1=\"{y}\" x2=\"{to}\" y2=\"{y}\" marker-end=\"url(#head)\"/>{label}\n"
    )
}

/// A message that ends before its addressee.
fn cross(
    alloc: Global,
    words: &str,
    from: usize,
    to: usize,
    y: usize,
) -> Result<String, AllocError> {
    let label = label(alloc, words, from, to, y)?;
    let end = if from < to {
        to.saturating_sub(20)
    } else {
        to.saturating_add(20)
    };
    let cross = y.saturating_add(4);
    format!(in alloc;
        "<line class=\"lost\" x1=\"{from}\" y1=\"{y}\" x2=\"{end}\" y2=\"{y}\"/><text class=\"alarmed\" x=\"{end}\" y=\"{cross}\">×</text>{label}\n"
    )
}

/// The words above a message.
fn label(
    alloc: Global,
    words: &str,
    from: usize,
    to: usize,
    y: usize,
) -> Result<String, AllocError> {
    let x = from / 2 + to / 2;
    let above = y.saturating_sub(4);
    format!(in alloc; "<text x=\"{x}\" y=\"{above}\">{words}</text>")
}

/// Words in a box round the middle of a lane, or beside it where the picture ends before the box would.
fn note(
    alloc: Global,
    words: &str,
    class: &str,
    x: usize,
    y: usize,
    picture: usize,
) -> Result<String, AllocError> {
    let width = words.len().saturating_mul(6).saturating_add(12);
    let rightmost = picture.saturating_sub(width);
    let left = x.saturating_sub(width / 2).min(rightmost);
    let middle = left.saturating_add(width / 2);
    let top = y.saturating_sub(13);
    format!(in alloc;
        "<rect class=\"{class}\" x=\"{left}\" y=\"{top}\" width=\"{width}\" height=\"17\" rx=\"4\"/><text x=\"{middle}\" y=\"{y}\">{words}</text>\n"
    )
}
