//! The rows of a chart.

ghost use Rattle.std.specs.Prelude.{◌≡◌, ◌<◌, ◌++◌, [], ◌∷◌, IfOk, OnOk, string_bytes};
ghost use Rattle.std.specs.Str.{trim_end};
ghost use Rattle.world_chart.specs.Drawing.{Adds, AddsOne, AddsView, Folds, IsSingle, Takes, Unfolds};
ghost use Rattle.world_chart.specs.Rows.{AreRows, IsEnd, Says, is_message};
ghost use Rattle.world_lines.specs.Lines.{happening_line};

use crate::lanes::Lanes;
use host_types::View;
use std::alloc::{AllocError, Global};
use world_lines::{Cause, Happening, Node, line_of, words_of};

/// The most messages that are drawn one by one.
const MAX_MESSAGES: usize = 100;

/// The most hex digits of a result that are shown: a status and r0.
const MAX_RESULT: usize = 18;

/// What a row shows.
#[derive(Clone, Copy, Debug, PartialEq, Eq)]
pub(crate) enum Shape {
    /// A message between two lanes.
    Arrow { from: usize, to: usize },
    /// One that is lost.
    Cross { from: usize, to: usize },
    /// What happens at a lane.
    Note { lane: usize },
    /// What a replica can't go on from, or should not have said.
    Alarm { lane: usize },
    /// Many messages in one row, and what clients accepted among them.
    Fold,
    /// A step of the script begins.
    Step,
    /// From here on some replica is in this view.
    View { view: View },
}

/// A row: what it shows, and its words.
#[derive(Drop)]
pub(crate) struct Row {
    pub(crate) shape: Shape,
    pub(crate) words: String,
}

/// The rows of what happened. Where there are more than 100 messages, those that follow one another stand in one row.
pub(crate) fn rows_of(
    alloc: Global,
    lanes: &Lanes,
    happened: &[Happening],
    accepted: &[String],
) -> Result<Vec<Row>, AllocError>
    ensures { IfOk result (λ rows. AreRows happened.now rows.items) }
{
    let folds = happened.iter().filter(|one| is_message(one)).count() > MAX_MESSAGES;
    let mut rows = Rows {
        alloc,
        lanes,
        rows: Vec::new(alloc),
        folds,
        view: View(0),
        accepted,
        folded: 0,
        words: String::new(alloc),
    };
    for happening in happened {
        rows.take(happening)?;
    }
    rows.unfold()?;
    let Rows { rows, .. } = rows;
    Ok(rows)
}

fn is_message(happening: &Happening) -> bool
    ensures { result ≡ is_message happening.now }
{
    matches!(happening, Happening::Handed { .. } | Happening::Lost { .. })
}

/// Rows that are being made.
#[derive(Drop)]
struct Rows<'a> {
    alloc: Global,
    lanes: &'a Lanes,
    rows: Vec<Row>,
    /// Whether there are too many messages to draw each.
    folds: bool,
    /// The greatest view that a replica has entered.
    view: View,
    /// The lines of the replies that are accepted from here on.
    accepted: &'a [String],
    /// How many messages wait for a row.
    folded: usize,
    /// What clients accepted among them.
    words: String,
}

impl Rows<'_> {
    fn push(&mut self, shape: Shape, words: String) -> Result<(), AllocError>
        ensures rows { OnOk result (self.new.rows.items ≡ self.old.rows.items ++ (record { shape = shape; words = words }) ∷ []) }
        ensures folded { self.new.folded ≡ self.old.folded }
    {
        self.rows.push(Row { shape, words })?;
        Ok(())
    }

    /// Takes one thing into the row of many messages, where there are too many of them and it belongs there, or adds its row.
    fn take(&mut self, happening: &Happening) -> Result<(), AllocError>
        requires { self.old.folded < 18446744073709551615 }
        ensures { OnOk result (Takes happening.now self.old.rows.items self.old.folded self.new.rows.items self.new.folded) }
    {
        if self.fold(happening)? {
            return Ok(());
        }
        self.unfold()?;
        self.add(happening)
    }

    /// Takes a message, or a reply that is accepted behind one, into the row of many messages. Whether it belongs there.
    fn fold(&mut self, happening: &Happening) -> Result<bool, AllocError>
        requires { self.old.folded < 18446744073709551615 }
        ensures taken { IfOk result (Folds happening.now self.old.folded self.new.folded) }
        ensures rows { self.new.rows.items ≡ self.old.rows.items }
    {
        if !self.folds {
            return Ok(false);
        }
        match *happening {
            Happening::Accepted { client } if self.folded > 0 => {
                let client = client.0;
                let words = self.accepted_words()?;
                self.words
                    .push_str(&format!(in self.alloc; ", client {client} {words}")?)?;
                Ok(true)
            }
            _ if is_message(happening) => {
                self.folded += 1;
                Ok(true)
            }
            _ => Ok(false),
        }
    }

    /// Ends a row of many messages, if one was begun.
    fn unfold(&mut self) -> Result<(), AllocError>
        ensures rows { OnOk result (Unfolds self.old.folded self.old.rows.items self.new.rows.items) }
        ensures folded { self.new.folded ≡ 0 }
    {
        let many = self.folded;
        self.folded = 0;
        if many == 0 {
            return Ok(());
        }
        let ending = ending_of(many);
        let more = self.words.as_str();
        let words = format!(in self.alloc; "{many} message{ending}{more}")?;
        self.words.clear();
        self.push(Shape::Fold, words)
    }

    /// What the next accepted reply says: `accepts 0000000000`, its result in hex, cut where it is long.
    fn accepted_words(&mut self) -> Result<String, AllocError>
        ensures rows { self.new.rows.items ≡ self.old.rows.items }
        ensures folded { self.new.folded ≡ self.old.folded }
    {
        let Some((line, rest)) = self.accepted.split_first() else {
            return String::from_str(self.alloc, "accepts");
        };
        self.accepted = rest;
        let result = last_word(line.as_str());
        match result.get(..MAX_RESULT) {
            Some(front) if result.len() > MAX_RESULT => {
                format!(in self.alloc; "accepts {front}..")
            }
            _ => format!(in self.alloc; "accepts {result}"),
        }
    }

    /// Adds the row of one thing, behind that of a view that it begins.
    fn add(&mut self, happening: &Happening) -> Result<(), AllocError>
        ensures rows { OnOk result (Adds happening.now self.old.rows.items self.new.rows.items) }
        ensures folded { self.new.folded ≡ self.old.folded }
    {
        self.add_view_of(happening)?;
        self.add_one(happening)
    }

    fn add_view_of(&mut self, happening: &Happening) -> Result<(), AllocError>
        ensures rows { OnOk result (AddsView self.old.rows.items self.new.rows.items) }
        ensures folded { self.new.folded ≡ self.old.folded }
    {
        match *happening {
            Happening::Entered { view, .. } => self.add_view(view),
            _ => Ok(()),
        }
    }

    /// Begins a view that no replica has entered yet.
    fn add_view(&mut self, view: View) -> Result<(), AllocError>
        ensures rows { OnOk result (AddsView self.old.rows.items self.new.rows.items) }
        ensures folded { self.new.folded ≡ self.old.folded }
    {
        if view.0 <= self.view.0 {
            return Ok(());
        }
        self.view = view;
        let number = view.0;
        let words = format!(in self.alloc; "view {number}")?;
        self.push(Shape::View { view }, words)
    }

    fn add_one(&mut self, happening: &Happening) -> Result<(), AllocError>
        ensures rows { OnOk result (AddsOne happening.now self.old.rows.items self.new.rows.items) }
        ensures folded { self.new.folded ≡ self.old.folded }
    {
        let shape = self.shape_of(happening);
        let words = self.words_of(happening)?;
        self.push(shape, words)
    }

    fn shape_of(&self, happening: &Happening) -> Shape
        ensures { IsSingle result }
    {
        let lane = self.lane_of(happening);
        match *happening {
            Happening::Handed {
                from: Some(from),
                ..
            } => Shape::Arrow {
                from: self.lanes.lane_of(from),
                to: lane,
            },
            Happening::Lost {
                from: Some(from),
                ..
            } => Shape::Cross {
                from: self.lanes.lane_of(from),
                to: lane,
            },
            Happening::Blamed(_) | Happening::Halted { .. } | Happening::Refused { .. } => {
                Shape::Alarm { lane }
            }
            Happening::Began { .. } => Shape::Step,
            _ => Shape::Note { lane },
        }
    }

    /// The words of one thing: of a step without the mark of its line, of what a replica does without its id.
    fn words_of(&mut self, happening: &Happening) -> Result<String, AllocError>
        ensures words { IfOk result (λ words. Says happening.now (string_bytes words)) }
        ensures rows { self.new.rows.items ≡ self.old.rows.items }
        ensures folded { self.new.folded ≡ self.old.folded }
    {
        match happening {
            Happening::Handed { saying, .. } | Happening::Lost { saying, .. } => {
                words_of(self.alloc, saying)
            }
            Happening::Accepted { .. } => self.accepted_words(),
            Happening::Unqueued(_) | Happening::Blamed(_) => line_words(self.alloc, happening),
            _ => behind_blank(self.alloc, line_words(self.alloc, happening)?),
        }
    }

    fn lane_of(&self, happening: &Happening) -> usize {
        match *happening {
            Happening::Refused { at, .. }
            | Happening::TimedOut { at }
            | Happening::Executed { at, .. }
            | Happening::Installed { at, .. }
            | Happening::Left { at, .. }
            | Happening::Entered { at, .. }
            | Happening::Raised { at, .. }
            | Happening::Halted { at, .. } => self.lanes.lane_of_replica(at),
            Happening::Accepted { client } => self.lanes.lane_of(Node::Client(client)),
            Happening::Handed { to, .. } | Happening::Lost { to, .. } => self.lanes.lane_of(to),
            Happening::Unqueued(Cause::Exhausted(node)) => self.lanes.lane_of(node),
            Happening::Blamed(blame) => self.lanes.lane_of_id(blame.signer()),
            Happening::Unqueued(_) | Happening::Began { .. } => 0,
        }
    }
}

/// What ends the word for so many things.
fn ending_of(many: usize) -> &'static str {
    if many == 1 { "" } else { "s" }
}

/// What stands behind the last blank of a line.
fn last_word(line: &str) -> &str {
    match line.trim_end().rsplit_once(' ') {
        Some((_, word)) => word,
        None => line,
    }
}

/// What stands behind the first blank of a line; all of one that has none.
fn behind_blank(alloc: Global, line: String) -> Result<String, AllocError>
    ensures { IfOk result (λ words. IsEnd (string_bytes words) (string_bytes line)) }
{
    match line.as_str().split_once(' ') {
        Some((_, words)) => String::from_str(alloc, words),
        None => Ok(line),
    }
}

/// The line of what happened, without its line end.
fn line_words(alloc: Global, happening: &Happening) -> Result<String, AllocError>
    ensures { IfOk result (λ words. string_bytes words ≡ trim_end (happening_line happening.now)) }
{
    let line = line_of(alloc, happening)?;
    String::from_str(alloc, line.as_str().trim_end())
}
