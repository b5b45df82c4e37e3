//! The commands: what each reads, and the lines that it writes.

use crate::call::Call;
use crate::call_text::read_calls;
use crate::decimal::read_numbers;
use crate::explain::explain;
use crate::failure::CodeFailure;
use crate::input::{CodeForm, HexSlip, read_hex, read_input};
use crate::map_text::read_map;
use crate::shown::{Format, write_line};
use bpf_asm::{assemble, print};
use bpf_decode::{decode_all, encode_all};
use bpf_machine::run;
use bpf_model::layout::ARGUMENTS_SIZE;
use bpf_verifier::{Procedure, Profile};
use host_types::ClientId;
use std::alloc::Global;
use std::io::{Read, Write};
use tenant_maps::TenantMap;

/// What code is called with.
#[derive(Clone, Copy)]
pub enum Arguments<'a> {
    /// One call: its argument bytes as hex, 256 at most.
    Hex(&'a str),
    /// One call: decimal numbers, 8 bytes each.
    Numbers(&'a str),
    /// A text of calls (`read_calls`).
    Calls(&'a str),
}

/// What `exec` does with code.
#[derive(Clone, Copy)]
pub struct Execution<'a> {
    pub form: CodeForm,
    pub profile: Profile,
    pub arguments: Arguments<'a>,
    /// The client that calls, where no line of a text of calls names another one.
    pub client: ClientId,
    /// The text of the map that the calls begin with (`read_map`); the empty one where there is none.
    pub map: Option<&'a str>,
    /// Whether the map's entries are written behind the last call.
    pub dumps: bool,
    pub format: Format,
}

/// Reads an assembler text and writes its code in hex, on one line. Before a failure nothing is written, but for
/// a write that failed.
pub fn asm<I: Read, O: Write>(
    alloc: Global,
    reader: &mut I,
    writer: &mut O,
) -> Result<(), CodeFailure> {
    let text = read_input(alloc, reader)?;
    let code = assemble(alloc, &text)?;
    let bytes = encode_all(alloc, &code)?;
    let digits = hex::encode(alloc, bytes.as_slice())?;
    write_line(writer, format!(in alloc; "{digits}\n")?)
}

/// Reads code and writes its assembler text, one instruction a line. Before a failure nothing is written,
/// but for a write that failed.
pub fn disasm<I: Read, O: Write>(
    alloc: Global,
    form: CodeForm,
    reader: &mut I,
    writer: &mut O,
) -> Result<(), CodeFailure> {
    let bytes = form.read(alloc, reader)?;
    let code = decode_all(alloc, &bytes)?;
    write_line(writer, print(alloc, &code)?)
}

/// Reads code and writes a profile's verdict.
pub fn verify<I: Read, O: Write>(
    alloc: Global,
    form: CodeForm,
    profile: Profile,
    format: Format,
    reader: &mut I,
    writer: &mut O,
) -> Result<(), CodeFailure> {
    let code = form.read(alloc, reader)?;
    write_verdict(alloc, profile, format, &code, writer)?;
    Ok(())
}

/// Reads code and writes a profile's verdict, what the verifier knows at each visit and, of refused code, why: the verdict's
/// line is then written before a refusal is returned.
pub fn verify_explained<I: Read, O: Write>(
    alloc: Global,
    form: CodeForm,
    profile: Profile,
    reader: &mut I,
    writer: &mut O,
) -> Result<(), CodeFailure> {
    let code = form.read(alloc, reader)?;
    explain(alloc, profile, &code, writer)
}

/// Reads code, verifies it and runs it, by one call or by several over one map. Writes the verdict, then the result, the
/// steps and the output of each call, and then, where that is asked for, the map's entries. What is wrong with the code's
/// form, with arguments or with the map's text is told in this order, before anything is written. Where memory runs out in a
/// call, what stands before it is written.
pub fn exec<I: Read, O: Write>(
    alloc: Global,
    execution: Execution<'_>,
    reader: &mut I,
    writer: &mut O,
) -> Result<(), CodeFailure> {
    let Execution {
        form,
        profile,
        arguments,
        client,
        map,
        dumps,
        format,
    } = execution;
    let code = form.read(alloc, reader)?;
    let calls = calls_of(alloc, client, arguments)?;
    let mut map = match map {
        Some(text) => read_map(alloc, text)?,
        None => TenantMap::new(alloc),
    };
    let procedure = write_verdict(alloc, profile, format, &code, writer)?;
    for call in &calls {
        let finished = run(&procedure, &call.arguments, call.client, &mut map)?;
        format.write_ending(alloc, &finished, writer)?;
    }
    if dumps {
        format.write_entries(alloc, &map, writer)?;
    }
    Ok(())
}

/// The calls that are asked for, by this client where a line names none.
fn calls_of(
    alloc: Global,
    client: ClientId,
    arguments: Arguments<'_>,
) -> Result<Vec<Call>, CodeFailure> {
    let bytes = match arguments {
        Arguments::Hex(digits) => match HexSlip::of(digits.as_bytes()) {
            Some(slip) => return Err(CodeFailure::ArgsNotHex(slip)),
            None => read_hex(alloc, digits.as_bytes())?,
        },
        Arguments::Numbers(numbers) => read_numbers(alloc, numbers)?,
        Arguments::Calls(text) => return Ok(read_calls(alloc, client, text)?),
    };
    if bytes.len() > ARGUMENTS_SIZE {
        return Err(CodeFailure::ArgsTooLong);
    }
    let mut calls = Vec::new(alloc);
    calls.push(Call {
        client,
        arguments: bytes,
    })?;
    Ok(calls)
}

/// Verifies the code under a profile and writes the verdict.
pub(crate) fn write_verdict<O: Write>(
    alloc: Global,
    profile: Profile,
    format: Format,
    code: &[u8],
    writer: &mut O,
) -> Result<Procedure, CodeFailure> {
    let procedure = match profile {
        Profile::One => bpf_verifier::verify(alloc, code)?,
        Profile::Two => bpf_verifier::verify2(alloc, code)?,
    };
    format.write_accepted(alloc, procedure.bound(), writer)?;
    Ok(procedure)
}
