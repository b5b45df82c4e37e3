//! A writer that makes objects of JSON of the lines of a script.

use crate::failure::Failure;
use crate::objects::add_outcome;
use code_commands::push_json;
use host_script::Script;
use script_meaning::{Outcome, meaning_of};
use std::alloc::{AllocError, Global};
use std::io::{self, ErrorKind, Write};

/// The objects of lines, but for those of replies: how many words a line has, how it begins, where `*` stands for a word, and its
/// object, in which `@a` stands for its first word. Of two that fit the first counts.
const FORMS: &str = r#"3|refused |{"fault":"@c","of":"message","replica":@b}
2|refused |{"fault":"@b","of":"state"}
2|nothing |{"queued":false}
9|replica |{"replica":@b,"view":@d,"phase":"@e","low":"@g","executed":"@i"}
5|replica |{"replica":@b,"halted":"@e","number":@d}
4|digest |{"replica":@b,"number":"@c","digest":"@d"}
5|queue - |{"from":null,"to":@c,"kind":null,"bytes":"@e"}
5|queue |{"from":@b,"to":@c,"kind":"@d","bytes":"@e"}
3|state |{"replica":@b,"state":"@c"}
2|upgraded |{"upgraded":"@b"}
3|audit agreed |{"audit":"agreed","executed":"@c"}
4|audit fault |{"audit":"fault","fault":"@d","of":"journals","number":@c}
2|drained yes|{"drained":true}
6|drained no |{"drained":false,"from":@c,"to":@d,"kind":"@e","bytes":"@f"}
6|expect fault |{"expect":"fault","step":@d,"line":@f}
6|script fault |{"fault":"@d","of":"script","number":@c,"step":@f}
5|unanswered |{"client":@c,"time":"@e","answered":false}
3|explored |{"explored":"@b"}
9|blame |{"blame":@b,"kind":"@c","view":@e,"number":"@g","digests":["@h","@i"]}
8|blame |{"blame":@b,"kind":"@c","view":@e,"hides":"@g","digest":"@h"}
7|blame * checkpoint |{"blame":@b,"kind":"@c","@d":"@e","digests":["@f","@g"]}
7|blame |{"blame":@b,"kind":"@c","view":@e,"digests":["@f","@g"]}
6|blame * leaf |{"blame":@b,"leaf":"@d","digests":["@e","@f"]}
6|blame |{"blame":@b,"kind":"@c","view":@e,"valid":false}
"#;

/// How a line begins that says what is found under a seed.
const SEED: &str = "seed ";

/// How a line begins that says what stands in the place of a step's order, and what stands before its choices or its seed.
const STEP: &str = "# step ";

const CHOICES: &str = ": choose = ";

const ORDER: &str = ": order = ";

/// How the line of a script's fault begins: the failure of the command has an object of its own.
const FAULT: &str = "script fault ";

/// What stands for the digest of the null request.
const NULL: &str = "null";

/// Writes an object of JSON to another writer for each line of a script that is written to it, but for that of the script's fault.
#[derive(Drop)]
pub(crate) struct LineObjects<'a, O: Write> {
    alloc: Global,
    script: &'a Script,
    writer: &'a mut O,
    /// What was written of the line so far.
    line: Vec<u8>,
    /// Whether memory ran out for a line or its object.
    lacked_memory: bool,
}

impl<'a, O: Write> LineObjects<'a, O> {
    pub(crate) fn new(alloc: Global, script: &'a Script, writer: &'a mut O) -> LineObjects<'a, O> {
        LineObjects {
            alloc,
            script,
            writer,
            line: Vec::new(alloc),
            lacked_memory: false,
        }
    }

    /// How the command ended whose lines were written: where a write failed since memory ran out, this is why.
    pub(crate) fn ended(&self, done: Result<(), Failure>) -> Result<(), Failure> {
        if self.lacked_memory {
            return Err(Failure::Memory);
        }
        done
    }

    /// Writes the object of the line, which is whole, and begins the next one.
    fn end_line(&mut self) -> io::Result<()> {
        let object = self.object();
        self.line.clear();
        match object {
            Ok(object) => self.writer.write_all(object.as_bytes()),
            Err(_) => self.out_of_memory(),
        }
    }

    fn out_of_memory(&mut self) -> io::Result<()> {
        self.lacked_memory = true;
        Err(io::Error::from(ErrorKind::OutOfMemory))
    }

    /// The object of the line, with a line end; nothing for that of the script's fault.
    fn object(&self) -> Result<String, AllocError> {
        match str::from_utf8(&self.line) {
            Ok(line) => {
                let line = line.strip_suffix("\n").unwrap_or(line);
                if line.starts_with(FAULT) {
                    return Ok(String::new(self.alloc));
                }
                let mut object = object_of(self.alloc, self.script, line)?;
                object.push('\n')?;
                Ok(object)
            }
            Err(_) => Ok(String::new(self.alloc)),
        }
    }
}

impl<O: Write> Write for LineObjects<'_, O> {
    fn write(&mut self, buf: &[u8]) -> io::Result<usize> {
        let count = match buf.iter().position(|byte| *byte == b'\n') {
            Some(end) => end.saturating_add(1),
            None => buf.len(),
        };
        let front = &buf[..count];
        if self.line.extend_from_slice(front).is_err() {
            self.out_of_memory()?;
        }
        if front.last() == Some(&b'\n') {
            self.end_line()?;
        }
        Ok(count)
    }

    fn flush(&mut self) -> io::Result<()> {
        self.writer.flush()
    }
}

/// The object of a line without its end.
fn object_of(alloc: Global, script: &Script, line: &str) -> Result<String, AllocError> {
    let Some((seed, found)) = line
        .strip_prefix(SEED)
        .and_then(|rest| rest.split_once(' '))
    else {
        return plain_object(alloc, script, line);
    };
    let object = plain_object(alloc, script, found)?;
    let members = object.strip_prefix("{").unwrap_or("");
    format!(in alloc; "{{\"seed\":\"{seed}\",{members}")
}

/// The object of a line that names no seed.
fn plain_object(alloc: Global, script: &Script, line: &str) -> Result<String, AllocError> {
    if let Some(object) = reply_object(alloc, script, line)? {
        return Ok(object);
    }
    let count = line.split(' ').count();
    for form in FORMS.lines() {
        if let Some(object) = object_by(form, count, line) {
            return filled(alloc, object, line);
        }
    }
    if let Some((step, choices)) = step_with(line, CHOICES) {
        return format!(in alloc; "{{\"step\":{step},\"choose\":{choices}}}");
    }
    if let Some((step, seed)) = step_with(line, ORDER) {
        return format!(in alloc; "{{\"step\":{step},\"order\":\"{seed}\"}}");
    }
    let mut object = String::from_str(alloc, "{\"line\":")?;
    push_json(&mut object, line)?;
    object.push('}')?;
    Ok(object)
}

/// The step of a line with this key, and its value, as of `# step 4: choose = [0, 2]`; none of another line.
fn step_with<'a>(line: &'a str, key: &str) -> Option<(&'a str, &'a str)> {
    line.strip_prefix(STEP)?.split_once(key)
}

/// The object of a form, where a line of so many words has it.
fn object_by<'a>(form: &'a str, count: usize, line: &str) -> Option<&'a str> {
    let (many, rest) = form.split_once('|')?;
    let (front, object) = rest.split_once('|')?;
    if many.parse::<usize>() == Ok(count) && begins(line, front) {
        Some(object)
    } else {
        None
    }
}

/// Whether a line begins so, where `*` stands for a word.
fn begins(line: &str, front: &str) -> bool {
    let Some((start, rest)) = front.split_once("* ") else {
        return line.starts_with(front);
    };
    match line
        .strip_prefix(start)
        .and_then(|behind| behind.split_once(' '))
    {
        Some((_, behind)) => behind.starts_with(rest),
        None => false,
    }
}

/// An object with the words of a line, none of which has an `@`. The null request has no digest.
fn filled(alloc: Global, object: &str, line: &str) -> Result<String, AllocError> {
    let mut text = String::from_str(alloc, object)?;
    for (letter, word) in ('a'..='i').zip(line.split(' ')) {
        if word == NULL {
            let place = format!(in alloc; "\"@{letter}\"")?;
            text = text.as_str().replace(alloc, place.as_str(), NULL)?;
        }
        let place = format!(in alloc; "@{letter}")?;
        text = text.as_str().replace(alloc, place.as_str(), word)?;
    }
    Ok(text)
}

/// The object of a reply that a client accepts, `client 100 time 1 number 1 result 0000000000`; none of another line.
fn reply_object(alloc: Global, script: &Script, line: &str) -> Result<Option<String>, AllocError> {
    let Some((front, result)) = line.split_once(" result ") else {
        return Ok(None);
    };
    let mut words = front.split(' ').skip(1).step_by(2);
    let (Some(client), Some(time), Some(number)) = (words.next(), words.next(), words.next()) else {
        return Ok(None);
    };
    let mut text = format!(in alloc;
        "{{\"client\":{client},\"time\":\"{time}\",\"number\":\"{number}\",\"result\":\"{result}\""
    )?;
    if let Ok(bytes) = hex::decode(alloc, result.as_bytes()) {
        if let Some(outcome) = Outcome::read(&bytes) {
            add_outcome(alloc, outcome, &mut text)?;
            let meaning = meaning_of(alloc, script, line)?;
            text.push_str(",\"meaning\":")?;
            push_json(&mut text, meaning.as_str().trim())?;
        }
    }
    text.push('}')?;
    Ok(Some(text))
}
