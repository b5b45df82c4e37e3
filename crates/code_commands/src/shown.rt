//! What the commands write of a verdict, a call and a map: lines for a person, or an object of JSON on each.

use crate::failure::CodeFailure;
use crate::map_text::print_map;
use bpf_machine::Finished;
use std::alloc::Global;
use std::io::Write;
use tenant_maps::TenantMap;

/// How a command writes.
#[derive(Clone, Copy, PartialEq, Eq)]
pub enum Format {
    /// Lines of words.
    Words,
    /// An object of JSON a line.
    Json,
}

impl Format {
    /// Writes that code was accepted, with its bound.
    pub(crate) fn write_accepted<O: Write>(
        self,
        alloc: Global,
        bound: u32,
        writer: &mut O,
    ) -> Result<(), CodeFailure> {
        let line = match self {
            Format::Words => format!(in alloc; "accepted bound {bound}\n")?,
            Format::Json => format!(in alloc; "{{\"verdict\":\"accepted\",\"bound\":{bound}}}\n")?,
        };
        write_line(writer, line)
    }

    /// Writes how a call ended.
    pub(crate) fn write_ending<O: Write>(
        self,
        alloc: Global,
        finished: &Finished,
        writer: &mut O,
    ) -> Result<(), CodeFailure> {
        let result = finished.result;
        let steps = finished.steps;
        let out = hex::encode(alloc, finished.out.as_slice())?;
        if self == Format::Json {
            return write_line(
                writer,
                format!(in alloc;
                    "{{\"result\":\"{result}\",\"steps\":{steps},\"out\":\"{out}\"}}\n"
                )?,
            );
        }
        write_line(writer, format!(in alloc; "result {result}\n")?)?;
        write_line(writer, format!(in alloc; "steps {steps}\n")?)?;
        let out = if out.is_empty() { "-" } else { out.as_str() };
        write_line(writer, format!(in alloc; "out {out}\n")?)
    }

    /// Writes the entries of a map, a line for each.
    pub(crate) fn write_entries<O: Write>(
        self,
        alloc: Global,
        shown: &TenantMap,
        writer: &mut O,
    ) -> Result<(), CodeFailure> {
        if self == Format::Words {
            return write_line(writer, print_map(alloc, shown)?);
        }
        for (key, value) in shown.entries() {
            let key = hex::encode(alloc, key.as_slice())?;
            let value = hex::encode(alloc, value.as_slice())?;
            write_line(
                writer,
                format!(in alloc; "{{\"key\":\"{key}\",\"value\":\"{value}\"}}\n")?,
            )?;
        }
        Ok(())
    }
}

pub(crate) fn write_line<O: Write>(writer: &mut O, line: String) -> Result<(), CodeFailure> {
    writer.write_all(line.as_bytes())?;
    Ok(())
}
