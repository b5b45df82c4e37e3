//! A script of which the reader is asked, with one table changed.

use crate::files::{SAMPLE_FILE, with_sample};
use crate::keys::{CLIENT, HEAD};
use script_text::{Dialect, NamedFile, ScriptFault, ScriptKind, read_script_with};
use std::alloc::{AllocError, Global};
use toml::{Table, Value};

/// Which table of a script is asked about.
#[derive(Clone, Copy, Debug, PartialEq, Eq)]
pub(crate) enum Place {
    Head,
    /// The client of this index.
    Client(usize),
    Step,
}

/// A script and one of its tables, with which the reader is asked.
#[derive(Drop)]
pub(crate) struct Probe {
    pub(crate) alloc: Global,
    dialect: Dialect,
    place: Place,
    /// Where a step is asked about, the files that steps name, and one more.
    pub(crate) files: Vec<NamedFile>,
    /// The head and its clients, and of the steps before the one that is asked about those that give names.
    rest: Table,
    /// The table that is asked about.
    pub(crate) table: Table,
}

impl Probe {
    /// The head of a document, without its steps.
    pub(crate) fn of_head(
        alloc: Global,
        dialect: Dialect,
        document: &Table,
    ) -> Result<Probe, AllocError> {
        let mut table = document.clone()?;
        if steps_of(document).is_some() {
            table.remove("step");
        }
        Ok(Probe {
            alloc,
            dialect,
            place: Place::Head,
            files: Vec::new(alloc),
            rest: Table::new(alloc),
            table,
        })
    }

    /// A client of a document, by its index; none where there isn't one.
    pub(crate) fn of_client(
        alloc: Global,
        dialect: Dialect,
        document: &Table,
        index: usize,
    ) -> Result<Option<Probe>, AllocError> {
        let Some(table) = member_at(document, "client", index) else {
            return Ok(None);
        };
        let table = table.clone()?;
        let mut rest = document.clone()?;
        rest.remove("step");
        Ok(Some(Probe {
            alloc,
            dialect,
            place: Place::Client(index),
            files: Vec::new(alloc),
            rest,
            table,
        }))
    }

    /// The step of a document that has so many before it; none where there isn't one.
    pub(crate) fn of_step(
        alloc: Global,
        dialect: Dialect,
        files: &[NamedFile],
        document: &Table,
        before: usize,
    ) -> Result<Option<Probe>, AllocError> {
        let Some(table) = member_at(document, "step", before) else {
            return Ok(None);
        };
        let table = table.clone()?;
        let mut rest = document.clone()?;
        rest.remove("step");
        let naming = naming_steps(alloc, document, before)?;
        set(alloc, &mut rest, "step", Value::Array(naming))?;
        Ok(Some(Probe {
            alloc,
            dialect,
            place: Place::Step,
            files: with_sample(alloc, files)?,
            rest,
            table,
        }))
    }

    /// Where the table's keys stand in the list of keys.
    pub(crate) fn place_name(&self) -> &str {
        match self.place {
            Place::Head => HEAD,
            Place::Client(_) => CLIENT,
            Place::Step => match self.table.get("do") {
                Some(Value::String(name)) => name.as_str(),
                _ => "",
            },
        }
    }

    /// What the reader refuses the script for with this table in place of its own, if it refuses it.
    pub(crate) fn fault_with(&self, table: &Table) -> Result<Option<ScriptKind>, AllocError> {
        let script = self.script_with(table)?;
        let Ok(text) = toml::table_to_string(self.alloc, &script) else {
            return Ok(Some(ScriptKind::NotToml));
        };
        match self.fault_of(text.as_bytes()) {
            Some(fault) if fault.kind == ScriptKind::Memory => Err(AllocError),
            Some(fault) => Ok(Some(fault.kind)),
            None => Ok(None),
        }
    }

    fn fault_of(&self, bytes: &[u8]) -> Option<ScriptFault> {
        read_script_with(self.alloc, self.dialect, &self.files, bytes).err()
    }

    /// The script with this table in place of its own.
    fn script_with(&self, table: &Table) -> Result<Table, AllocError> {
        let mut script = match self.place {
            Place::Head => return table.clone(),
            _ => self.rest.clone()?,
        };
        let own = Value::Table(table.clone()?);
        match self.place {
            Place::Client(index) => {
                if let Some(clients) = list_in(&mut script, "client") {
                    if index < clients.len() {
                        clients[index] = own;
                    }
                }
            }
            _ => {
                if let Some(steps) = list_in(&mut script, "step") {
                    steps.push(own)?;
                }
            }
        }
        Ok(script)
    }

    /// A value that a key takes: TOML, or a word for a value of the script's own. None where the script has no such value.
    pub(crate) fn sample(&self, text: &str) -> Result<Option<Value>, AllocError> {
        match text {
            "CLIENT" => copy_of(member_at(&self.rest, "client", 0), "id"),
            "NAME" => copy_of(member_at(&self.rest, "step", 0), "as"),
            "FAULTY" => match self.rest.get("faulty").and_then(|faulty| faulty.get(0)) {
                Some(id) => Ok(Some(id.clone()?)),
                None => Ok(None),
            },
            "FILE" => Ok(Some(Value::string(self.alloc, SAMPLE_FILE)?)),
            "STEP" => Ok(Some(Value::string(self.alloc, self.some_step())?)),
            "FIVES" => Ok(Some(self.one_each(5)?)),
            "ZEROS" => Ok(Some(self.one_each(0)?)),
            _ => match Value::from_str(self.alloc, text) {
                Ok(value) => Ok(Some(value)),
                Err(error) if error.is_memory() => Err(AllocError),
                Err(_) => Ok(None),
            },
        }
    }

    /// The name of a step.
    fn some_step(&self) -> &'static str {
        match self.dialect {
            Dialect::World | Dialect::Seeded => "show",
            Dialect::Threads => "timeout",
        }
    }

    /// This number for each replica.
    fn one_each(&self, number: i64) -> Result<Value, AllocError> {
        let f = match self.table.get("f") {
            Some(Value::Integer(f)) if *f >= 1 && *f <= 3 => *f,
            _ => 1,
        };
        let mut numbers = Vec::new(self.alloc);
        for _ in 0..3 * f + 1 {
            numbers.push(Value::Integer(number))?;
        }
        Ok(Value::Array(numbers))
    }
}

/// Puts a value at a key.
pub(crate) fn set(
    alloc: Global,
    table: &mut Table,
    key: &str,
    value: Value,
) -> Result<(), AllocError> {
    table.insert(String::from_str(alloc, key)?, value)?;
    Ok(())
}

/// The steps of a document, if they are a list.
fn steps_of(document: &Table) -> Option<&Vec<Value>> {
    document.get("step")?.as_array()
}

/// The table of this index in the list at a key.
fn member_at<'a>(document: &'a Table, key: &str, index: usize) -> Option<&'a Table> {
    document.get(key)?.as_array()?.get(index)?.as_table()
}

/// The list at a key.
fn list_in<'a>(document: &'a mut Table, key: &str) -> Option<&'a mut Vec<Value>> {
    document.get_mut(key)?.as_array_mut()
}

/// The value at a key of a table, if they are there.
fn copy_of(table: Option<&Table>, key: &str) -> Result<Option<Value>, AllocError> {
    match table {
        Some(table) => match table.get(key) {
            Some(value) => Ok(Some(value.clone()?)),
            None => Ok(None),
        },
        None => Ok(None),
    }
}

/// Of the first so many steps those that give names.
fn naming_steps(alloc: Global, document: &Table, before: usize) -> Result<Vec<Value>, AllocError> {
    let mut naming = Vec::new(alloc);
    let Some(steps) = steps_of(document) else {
        return Ok(naming);
    };
    for step in steps.iter().take(before) {
        if step.get("as").is_some() {
            naming.push(step.clone()?)?;
        }
    }
    Ok(naming)
}
