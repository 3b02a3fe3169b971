//! Scripts, and the text that spells one.
ghost use Rattle.std.specs.Prelude.{◌≡◌, ◌+◌, ◌<◌, ◌≤◌, [], ◌∷◌, ◌++◌, length, nat_le, slice_get, Err, IfOk, OnErr, OnOk, Some, None};
ghost use Rattle.std.specs.List.{list_any};
ghost use Rattle.aoe_script.specs.Lines.{line_refusal, lines_of, most_script_bytes, refusal, refused_for, said_by, script_of, with_line, AreGood, FailsFor, IsScript, IsWanting, ScriptLines};
ghost use Rattle.aoe_script.specs.Rules.{event_why, marks, setup_why};

use crate::event::Event;
use crate::line::Line;
use crate::lines::next_line;
use crate::refusal::ScriptRefusal;
use crate::setup::{Name, Setup};
use crate::standing::{Kind, any};
use crate::table::read_line;
use aoe_base::NoMemory;
use std::alloc::Global;
use std::marker::Model;

/// The longest text of a script, in bytes.
pub const LONGEST_TEXT: usize = 16_777_216;

/// The most events of a script.
pub const MAX_EVENTS: usize = 50_000;

/// A script: setup lines, and events behind them. None of its lines is bad.
#[derive(Drop)]
pub struct Script {
    setups: Vec<Setup>,
    events: Vec<Event>,
}

impl Model for Script {
    ghost Value = { ScriptLines };

    ghost view = { λ s. record { setups = s.setups.items; events = s.events.items } };

    ghost invariant = { λ s. IsScript (record { setups = s.setups.items; events = s.events.items }) };
}

impl Script {
    /// A script without a line.
    pub fn new(alloc: Global) -> Script
        ensures { result ≡ lines_of [] }
    {
        Script {
            setups: Vec::new(alloc),
            events: Vec::new(alloc),
        }
    }

    /// How many events there are.
    pub fn count(&self) -> usize
        ensures count { result ≡ length self.now.events }
        ensures script { IsScript self.now }
    {
        self.events.len()
    }

    /// An event by its place, from 0.
    pub fn event(&self, i: usize) -> &Event
        requires { i < length self.now.events }
        ensures event { slice_get self.now.events i ≡ Some result.now }
        ensures good { event_why self.now.setups result.now ≡ None }
    {
        &self.events[i]
    }

    /// How many setup lines there are.
    pub fn setups(&self) -> usize
        ensures count { result ≡ length self.now.setups }
        ensures script { IsScript self.now }
    {
        self.setups.len()
    }

    /// A setup line by its place, from 0.
    pub fn setup(&self, i: usize) -> &Setup
        requires { i < length self.now.setups }
        ensures setup { slice_get self.now.setups i ≡ Some result.now }
    {
        &self.setups[i]
    }

    /// Whether a setup line marks this slot as read-only.
    pub fn is_read_only(&self, shelf: &Name, minor: u64) -> bool
        ensures { result ≡ list_any (marks shelf.now minor) self.now.setups }
    {
        any(self.setups.as_slice(), &Kind::Marked(shelf, minor))
    }

    /// A script of setup lines with which nothing is wrong, and of no event.
    pub fn of_setups<const N: usize>(alloc: Global, setups: [Setup; N]) -> Result<Script, NoMemory>
        requires few { N ≤ most_script_bytes }
        requires good { AreGood setups }
        ensures { IfOk result (λ script. script ≡ record { setups = setups.entry; events = [] }) }
    {
        let mut script = Script::new(alloc);
        'setups: for setup in setups {
            match script.declare(setup) {
                Ok(()) => {}
                Err(refusal) => return Err(refusal.memory_alone()),
            }
        }
        Ok(script)
    }

    /// Takes a setup line in.
    fn place(&mut self, number: u32, setup: Setup) -> Result<(), ScriptRefusal>
        requires { length self.old.setups < most_script_bytes }
        ensures cause { FailsFor (line_refusal number self.old (Line.Declares setup)) result }
        ensures memory { result ≡ Err ScriptRefusal.NoMemory
            → line_refusal number self.old (Line.Declares setup) ≡ None }
        ensures ok { OnOk result (self.new ≡ with_line self.old (Line.Declares setup)) }
        ensures err { OnErr result (self.new ≡ self.old) }
    {
        let behind = self.events.len() > 0;
        if let Some(why) = setup.why(self.setups.as_slice(), behind) {
            return Err(ScriptRefusal::BadLine { line: number, why });
        }
        setup.fields_fit();
        match self.setups.push(setup) {
            Ok(()) => Ok(()),
            Err(_) => Err(ScriptRefusal::NoMemory),
        }
    }

    /// Takes an event in.
    fn ask(&mut self, number: u32, event: Event) -> Result<(), ScriptRefusal>
        ensures cause { FailsFor (line_refusal number self.old (Line.Asks event)) result }
        ensures memory { result ≡ Err ScriptRefusal.NoMemory
            → line_refusal number self.old (Line.Asks event) ≡ None }
        ensures ok { OnOk result (self.new ≡ with_line self.old (Line.Asks event)) }
        ensures err { OnErr result (self.new ≡ self.old) }
    {
        if let Some(why) = event.why(self.setups.as_slice()) {
            return Err(ScriptRefusal::BadLine { line: number, why });
        }
        if self.events.len() >= MAX_EVENTS {
            return Err(ScriptRefusal::TooMany);
        }
        event.fields_fit();
        match self.events.push(event) {
            Ok(()) => Ok(()),
            Err(_) => Err(ScriptRefusal::NoMemory),
        }
    }

    /// Takes the line of this number in.
    fn enter(&mut self, number: u32, line: Line) -> Result<(), ScriptRefusal>
        requires { length self.old.setups < most_script_bytes }
        ensures cause { FailsFor (line_refusal number self.old line) result }
        ensures memory { result ≡ Err ScriptRefusal.NoMemory
            → line_refusal number self.old line ≡ None }
        ensures ok { OnOk result (self.new ≡ with_line self.old line) }
    {
        match line {
            Line::Blank => Ok(()),
            Line::Declares(setup) => self.place(number, setup),
            Line::Asks(event) => self.ask(number, event),
            Line::Bad(why) => Err(ScriptRefusal::BadLine { line: number, why }),
        }
    }

    /// Adds a setup line at the end, which is no place for one where there are events. The number of
    /// a bad line is the one that it would have there.
    pub fn declare(&mut self, setup: Setup) -> Result<(), ScriptRefusal>
        requires { length self.old.setups < most_script_bytes }
        ensures cause { FailsFor (line_refusal
            (length self.old.setups + length self.old.events + 1) self.old
            (Line.Declares setup)) result }
        ensures memory { result ≡ Err ScriptRefusal.NoMemory → line_refusal
            (length self.old.setups + length self.old.events + 1) self.old
            (Line.Declares setup) ≡ None }
        ensures ok { OnOk result (self.new ≡ with_line self.old (Line.Declares setup)) }
        ensures err { OnErr result (self.new ≡ self.old) }
    {
        let number = self.setups() + self.count() + 1;
        self.place(number as u32, setup)
    }

    /// Adds an event at the end. The number of a bad line is the one that it would have there.
    pub fn push(&mut self, event: Event) -> Result<(), ScriptRefusal>
        ensures cause { FailsFor (line_refusal
            (length self.old.setups + length self.old.events + 1) self.old
            (Line.Asks event)) result }
        ensures memory { result ≡ Err ScriptRefusal.NoMemory → line_refusal
            (length self.old.setups + length self.old.events + 1) self.old
            (Line.Asks event) ≡ None }
        ensures ok { OnOk result (self.new ≡ with_line self.old (Line.Asks event)) }
        ensures err { OnErr result (self.new ≡ self.old) }
    {
        let number = self.setups() + self.count() + 1;
        self.ask(number as u32, event)
    }
}

/// The script that a text of no more than 16,777,216 bytes spells.
fn read_lines(alloc: Global, text: &[u8]) -> Result<Script, ScriptRefusal>
    requires { length text.now ≤ most_script_bytes }
    ensures cause { FailsFor (refusal text.now) result }
    ensures memory { result ≡ Err ScriptRefusal.NoMemory → IsWanting text.now }
    ensures script { IfOk result (λ script. script ≡ script_of text.now) }
{
    let mut script = Script::new(alloc);
    let mut rest = text;
    let mut number = 0;
    'lines: while let Some((line, next)) = next_line(rest) {
        let Ok(line) = read_line(alloc, line) else {
            return Err(ScriptRefusal::NoMemory);
        };
        number += 1;
        match script.enter(number, line) {
            Ok(()) => {}
            Err(refusal) => return Err(refusal),
        }
        rest = next;
    }
    Ok(script)
}

/// The script that a text spells. It is refused for its length, or for the first line that is bad
/// or one event too many. Memory is asked for only where nothing is wrong with the lines before: for
/// the bytes of a line, and for a line with which nothing is wrong.
pub fn read_script(alloc: Global, text: &[u8]) -> Result<Script, ScriptRefusal>
    ensures cause { FailsFor (refusal text.now) result }
    ensures memory { result ≡ Err ScriptRefusal.NoMemory → IsWanting text.now }
    ensures script { IfOk result (λ script. script ≡ script_of text.now) }
{
    if text.len() > LONGEST_TEXT {
        return Err(ScriptRefusal::TooLong);
    }
    read_lines(alloc, text)
}
