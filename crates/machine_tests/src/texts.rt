//! Texts of the assembler that no row can say: with tabs, line ends of two bytes, bytes that are no text, and
//! labels that are far away.

use bpf_asm::{AsmFault, assemble};
use bpf_decode::encode_all;
use std::alloc::Global;
use std::test::Fail;

/// Texts, with `/` for a line end, and the code in hex, or the fault, as an independent model has them.
const TEXTS: &str = "\
\x20jset32  r3\t,  r4\t,\t-5035  / => 4e4355ec00000000\n\
div64  r3,  1776682203/  sdiv64\tr3  ,-2082933151/ => 37030000db04e6693703010061f6d883\n\
exit\r/lddw r0, r1 => line 2 fault 2 Operand\n\
exit\r/exit\r/ja +32767\r/ => 950000000000000095000000000000000500ff7f00000000\n\
rsh64\tr3,-1200115234  / => 77030000deb177b8\n\
jslt r3\t,r4\t,  +8847\t;/ => cd438f2200000000\n\
\x20mul32\tr3 ,1147730740/ => 2403000034fb6844\n\
\x20 jsle\tr3  ,1473189491,+4416\t; a comment, [r1+2] ja/ => d50340117316cf57\n\
jset32\tr3 ,\t819465615  ,-17006/ => 460392bd8f0dd830\n\
exit\r/mov64 r0, 2147483648\r/mov64 r0, 0 => 9500000000000000b700000000000080b700000000000000\n\
\tdiv32 r3\t,r4 /\tsdiv32  r3  ,  r4/ => 3c430000000000003c43010000000000\n\
\x20 jset  r3,r4,\t-28159 ;/ => 4d43019200000000\n\
\x20 xor32  r3\t,r4 / => ac43000000000000\n\
\x20mov64 r0, 1  ;/mov64\tr6 ,\tr1/mov64\tr7,r2\t/ mov64 r4,  54  /  \t/mov64  r5  ,16  /  exit => b700000001000000bf16000000000000bf27000000000000b704000036000000b7050000100000009500000000000000\n\
exit\r/exit\r/add16 r0, 1\r/ => line 3 fault 1 Word\n\
\x20 mov64\tr3\t,\tr4/movsx8_64\tr3 , r4\t/\tmovsx16_64\tr3  ,r4  /movsx32_64 r3, r4\t/ => bf43000000000000bf43080000000000bf43100000000000bf43200000000000\n\
exit\r/ja32 f_1\r/mov64 r0, 0 => line 2 fault 4 Label\n\
sub32\tr3\t,  r4/ => 1c43000000000000\n\
\tand32\tr3,\tr4\t/ => 5c43000000000000\n\
exit\r/exit\r/ldx r0, [r1] => line 3 fault 1 Word\n\
exit\r/exit\r/ => 95000000000000009500000000000000\n\
\tstb [ r1 - 0x1 ] ,-1;x => 7201ffffffffffff\n\
exit;\x7f => 9500000000000000\n\
exit\r => line 1 fault 1 Word\n\
exit\r\r/ => line 1 fault 1 Word\n\
";

/// The code in hex, or the fault.
fn outcome(alloc: Global, text: &[u8]) -> Result<String, Fail> {
    match assemble(alloc, text) {
        Ok(code) => {
            let bytes = encode_all(alloc, &code)?;
            Ok(hex::encode(alloc, bytes.as_slice())?)
        }
        Err(fault) => Ok(fault.to_string(alloc)?),
    }
}

#[test]
fn texts_of_the_assembler(rt: HostRuntime) -> Result<(), Fail> {
    for line in TEXTS.lines() {
        let (text, wanted) = line.split_once(" => ").ok_or("no answer")?;
        let text = text.replace(rt.alloc(), "/", "\n")?;
        let found = outcome(rt.alloc(), text.as_bytes())?;
        assert!(rt; found.as_str() == wanted, "{line}");
    }
    let found = outcome(rt.alloc(), b"exit ; caf\xc3")?;
    assert!(rt; found.as_str() == "line 1 fault 1 Word");
    Ok(())
}

/// Labels that 16 bits just reach, and that they don't: a first line, exits, a last line, and the fault.
const FAR_LABELS: &str = "\
ja f | 32767 | f: |\n\
ja f | 32768 | f: | line 1 fault 4 Label\n\
f: | 32767 | ja f |\n\
f: | 32768 | ja f | line 32770 fault 4 Label\n\
";

/// The text of a line of `FAR_LABELS`.
fn around_exits(alloc: Global, first: &str, count: &str, last: &str) -> Result<String, Fail> {
    let exits = "exit\n".repeat(alloc, count.parse::<usize>()?)?;
    Ok(format!(in alloc; "{first}\n{exits}{last}")?)
}

/// The fault of a text, or nothing.
fn fault_of(alloc: Global, text: &str) -> Result<String, Fail> {
    let fault: Option<AsmFault> = assemble(alloc, text.as_bytes()).err();
    match fault {
        Some(fault) => Ok(fault.to_string(alloc)?),
        None => Ok(String::new(alloc)),
    }
}

#[test]
fn far_labels(rt: HostRuntime) -> Result<(), Fail> {
    for line in FAR_LABELS.lines() {
        let mut fields = line.split('|').map(|field| field.trim());
        let first = fields.next().ok_or("no first line")?;
        let count = fields.next().ok_or("no count")?;
        let last = fields.next().ok_or("no last line")?;
        let fault = fields.next().ok_or("no fault")?;
        let text = around_exits(rt.alloc(), first, count, last)?;
        assert!(rt; fault_of(rt.alloc(), &text)?.as_str() == fault, "{line}");
    }
    Ok(())
}
