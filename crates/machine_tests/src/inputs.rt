//! Texts of maps, calls and numbers: what each is read as, and its faults, where a row of the program can't say it.

use code_commands::{print_map, read_calls, read_map, read_numbers};
use hex::encode;
use host_types::ClientId;
use std::alloc::Global;
use std::test::Fail;
use tenant_maps::MapPort;

/// A line for the entry of a number: its key, and a value of zeros.
fn line_of(alloc: Global, number: u32) -> Result<String, Fail> {
    let zeros = "0".repeat(alloc, 64)?;
    Ok(format!(in alloc; "{number:032x} {zeros}\n")?)
}

/// The text of a map with the keys from 0 on.
fn text_of(alloc: Global, entries: u32) -> Result<String, Fail> {
    let mut text = String::new(alloc);
    for number in 0..entries {
        text.push_str(&line_of(alloc, number)?)?;
    }
    Ok(text)
}

#[test]
fn a_map_of_4096_entries(rt: HostRuntime) -> Result<(), Fail> {
    let text = text_of(rt.alloc(), 4096)?;
    let found = read_map(rt.alloc(), &text)?;
    assert_eq!(rt; found.len(), 4096);
    let printed = print_map(rt.alloc(), &found)?;
    let again = read_map(rt.alloc(), &printed)?;
    assert!(rt; print_map(rt.alloc(), &again)?.as_str() == printed.as_str());
    Ok(())
}

#[test]
fn the_entry_behind_them(rt: HostRuntime) -> Result<(), Fail> {
    let text = text_of(rt.alloc(), 4097)?;
    let fault = read_map(rt.alloc(), &text).err().ok_or("4,097 entries")?;
    let said = format!(in rt.alloc(); "{fault}")?;
    assert!(rt; said.as_str() == "map line 4097 fault 4 TooMany", "{said}");
    Ok(())
}

/// The text in the brackets of a line, and the answer behind them.
fn text_and_answer(line: &str) -> Option<(&str, &str)> {
    line.strip_prefix("[")?.split_once("] => ")
}

/// Texts of numbers in brackets, and their bytes or the fault.
const NUMBERS: &str = "\
[] => \n\
[0] => 0000000000000000\n\
[  7   258] => 07000000000000000201000000000000\n\
[18446744073709551615] => ffffffffffffffff\n\
[18446744073709551616] => number 1 fault 1 NotNumber\n\
[-1] => ffffffffffffffff\n\
[-0] => 0000000000000000\n\
[-9223372036854775808] => 0000000000000080\n\
[1 -9223372036854775809] => number 2 fault 1 NotNumber\n\
[+1] => number 1 fault 1 NotNumber\n\
[1 0x10] => number 2 fault 1 NotNumber\n\
[-] => number 1 fault 1 NotNumber\n\
[1,2] => number 1 fault 1 NotNumber\n\
";

/// The bytes of a text of numbers as hex, or its fault.
fn numbers_read(alloc: Global, text: &str) -> Result<String, Fail> {
    match read_numbers(alloc, text) {
        Ok(bytes) => Ok(encode(alloc, bytes.as_slice())?),
        Err(fault) => Ok(format!(in alloc; "{fault}")?),
    }
}

#[test]
fn numbers(rt: HostRuntime) -> Result<(), Fail> {
    for line in NUMBERS.lines() {
        let (text, wanted) = text_and_answer(line).ok_or("no answer")?;
        let found = numbers_read(rt.alloc(), text)?;
        assert!(rt; found.as_str() == wanted, "{line}: {found}");
    }
    Ok(())
}

#[test]
fn no_more_than_32_numbers(rt: HostRuntime) -> Result<(), Fail> {
    let most = "9 ".repeat(rt.alloc(), 32)?;
    assert_eq!(rt; read_numbers(rt.alloc(), &most)?.len(), 256);
    let found = numbers_read(rt.alloc(), &"9 ".repeat(rt.alloc(), 33)?)?;
    assert!(rt; found.as_str() == "number 33 fault 2 TooMany", "{found}");
    Ok(())
}

/// Texts of calls in brackets, with `/` for a line end, and who calls with which bytes, or the fault.
const CALLS: &str = "\
[] => \n\
[0a/@100 0B 0c//@7/] => 16:0a 100:0b0c 16: 7: \n\
[@4294967295 00] => 4294967295:00 \n\
[00/@4294967296 00] => call line 2 fault 1 BadClient\n\
[@ 00] => call line 1 fault 1 BadClient\n\
[@-1 00] => call line 1 fault 1 BadClient\n\
[@1x 00] => call line 1 fault 1 BadClient\n\
[00/0] => call line 2 fault 2 NotHex\n\
[00 @1] => call line 1 fault 2 NotHex\n\
";

/// The calls of a text, or its fault.
fn calls_read(alloc: Global, text: &str) -> Result<String, Fail> {
    let calls = match read_calls(alloc, ClientId(16), text) {
        Ok(calls) => calls,
        Err(fault) => return Ok(format!(in alloc; "{fault}")?),
    };
    let mut said = String::new(alloc);
    for call in &calls {
        let bytes = encode(alloc, call.arguments.as_slice())?;
        let client = call.client.0;
        said.push_str(&format!(in alloc; "{client}:{bytes} ")?)?;
    }
    Ok(said)
}

#[test]
fn calls(rt: HostRuntime) -> Result<(), Fail> {
    for line in CALLS.lines() {
        let (text, wanted) = text_and_answer(line).ok_or("no answer")?;
        let found = calls_read(rt.alloc(), &text.replace(rt.alloc(), "/", "\n")?)?;
        assert!(rt; found.as_str() == wanted, "{line}: {found}");
    }
    Ok(())
}

#[test]
fn no_more_than_256_bytes(rt: HostRuntime) -> Result<(), Fail> {
    let most = "00".repeat(rt.alloc(), 256)?;
    assert_eq!(rt; read_calls(rt.alloc(), ClientId(16), &most)?.len(), 1);
    let found = calls_read(rt.alloc(), &"00".repeat(rt.alloc(), 257)?)?;
    assert!(rt; found.as_str() == "call line 1 fault 3 TooLong", "{found}");
    Ok(())
}
