//! What a request came to, as its result says it.

use crate::cursor::Cursor;
use crate::unclear::Unclear;

/// How many bytes the id of a procedure has.
const ID: usize = 4;

/// What a request came to.
#[derive(Clone, Copy, Debug, PartialEq, Eq)]
pub enum Outcome<'a> {
    /// Code was installed, as the procedure of this id.
    Installed(u64),
    /// A procedure was called: r0, and what it put out.
    Returned { r0: u64, output: &'a [u8] },
    /// The request was refused.
    Refused(Refused),
}

/// Why a request was refused. Its number is the result's first byte.
#[derive(Clone, Copy, Debug, PartialEq, Eq)]
pub enum Refused {
    /// There is no such operation.
    Operation = 1,
    /// The code isn't accepted.
    Code = 2,
    /// The tenant has no such procedure.
    Procedure = 3,
    /// The tenant has 64 procedures.
    Full = 4,
    /// There are more than 256 bytes of arguments.
    Arguments = 5,
}

impl Refused {
    /// The result's first byte.
    pub fn number(self) -> u8 {
        self as u8
    }

    /// What a result with this first byte was refused for.
    fn of(number: u64) -> Option<Refused> {
        match number {
            1 => Some(Refused::Operation),
            2 => Some(Refused::Code),
            3 => Some(Refused::Procedure),
            4 => Some(Refused::Full),
            5 => Some(Refused::Arguments),
            _ => None,
        }
    }
}

impl<'a> Outcome<'a> {
    /// What a result's bytes say; none where they are no result.
    pub fn read(bytes: &'a [u8]) -> Option<Outcome<'a>> {
        read(bytes).ok()
    }
}

fn read<'a>(bytes: &'a [u8]) -> Result<Outcome<'a>, Unclear> {
    let mut cursor = Cursor::new(bytes);
    let number = cursor.number(1)?;
    if number != 0 {
        return match Refused::of(number) {
            Some(why) => Ok(Outcome::Refused(why)),
            None => Err(Unclear::Other),
        };
    }
    if cursor.rest().len() == ID {
        return Ok(Outcome::Installed(cursor.number(ID)?));
    }
    let r0 = cursor.number(8)?;
    Ok(Outcome::Returned {
        r0,
        output: cursor.rest(),
    })
}
