//! A writer over a writer, on whose way out text is escaped.
ghost use Rattle.std.specs.Prelude.{◌≡◌, ◌≤◌, [], ◌++◌, length, true, Some, OnErr, OnOk};
ghost use Rattle.std.specs.List.{list_all};
ghost use Rattle.std.specs.Io.{WritesAtMost};
ghost use Rattle.std.specs.Io.KnownBytes.{Appends, WriteAppends};
ghost use Rattle.bac_shown.specs.Going.{Puts};
ghost use Rattle.bac_shown.specs.Harmful.{is_plain};
ghost use Rattle.bac_shown.specs.Pieces.{is_open, shown};

use crate::form::Form;
use crate::front::plain_len;
use crate::sending::{finish, settle};
use crate::written::Written;
use std::alloc::Global;
use std::io;
use std::io::Write;
use std::snapshot::Snapshot;

/// A writer over a writer. What is written goes on as it is, but harmful characters and octets that are no UTF-8 are escaped.
///
/// A character may be cut between two writes: what is not yet whole is held, at most three octets, until more comes. What the writer below does not take waits,
/// and is sent first at the next write or flush.
pub struct Shown<W: Write> {
    pub form: Form,
    /// The writer below, as clauses see it before anything was written.
    pub began: Snapshot<W>,
    /// The writer below.
    pub under: W,
    /// What was written.
    pub written: Written,
    /// The front of a character.
    pub held: Vec<u8>,
    /// What is to be written below.
    pub waiting: Vec<u8>,
    /// What was written has gone to the writer below as it is shown, but for what waits and what is held; none of it is harmful.
    pub ghost put: { ∥ Puts form (W.contents began.value) (W.contents under) written.octets held.items [] waiting.items ∥₁ },
}

impl<W: Write> Shown<W> {
    /// Over this writer, in this form.
    pub fn new(alloc: Global, form: Form, under: W) -> Shown<W>
        ensures form { result.form ≡ form }
        ensures began { result.began.value ≡ under }
        ensures under { result.under ≡ under }
        ensures nothing { result.written.octets ≡ [] }
    {
        Shown {
            form,
            began: Snapshot::of(&under),
            under,
            written: Written::new(),
            held: Vec::new(alloc),
            waiting: Vec::new(alloc),
        }
    }

    /// Writes below what waits, and of what is held what more octets cannot change.
    fn settle(&mut self) -> io::Result<()>
        ensures kept { self.new.written.octets ≡ self.old.written.octets }
        ensures open { OnOk result (is_open self.new.held.items ≡ true) }
        ensures sent { OnOk result (self.new.waiting.items ≡ []) }
        ensures few { OnOk result (length self.new.held.items ≤ 3) }
    {
        settle(
            self.form,
            &mut self.held,
            &mut self.waiting,
            &mut self.under,
        )
    }

    /// Writes plain octets below.
    fn pass(&mut self, plain: &[u8]) -> io::Result<usize>
        requires plain { list_all is_plain plain.now ≡ true }
        requires nothing_held { self.old.held.items ≡ [] }
        requires nothing_waits { self.old.waiting.items ≡ [] }
        ensures bound { WritesAtMost result plain.now }
        ensures bytes { WriteAppends (Some self.old.written.octets) (Some self.new.written.octets) result plain.now }
    {
        let count = self.under.write(plain)?;
        self.written.note(&plain[..count]);
        Ok(count)
    }

    /// Holds an octet, and writes what that makes whole.
    fn hold(&mut self, octet: &[u8]) -> io::Result<()>
        requires { length octet.now ≡ 1 }
        ensures held { OnOk result (self.new.written.octets ≡ self.old.written.octets ++ octet.now) }
        ensures kept { OnErr result (self.new.written.octets ≡ self.old.written.octets) }
    {
        self.held.extend_from_slice(octet)?;
        self.written.note(octet);
        // what fails here is tried again before the next octet
        let _ = self.settle();
        Ok(())
    }

    /// Ends: what is held becomes no character. The writer below, and an Err if it fails, or memory is out.
    pub fn finish(self) -> (W, io::Result<()>)
        ensures { OnOk result.1 (Appends (W.contents self.began.value) (W.contents result.0) (shown self.form self.written.octets)) }
    {
        let Shown {
            form,
            began: _,
            mut under,
            written: _,
            mut held,
            mut waiting,
        } = self;
        let ended = finish(form, &mut held, &mut waiting, &mut under);
        (under, ended)
    }
}

impl<W: Write> Write for Shown<W> {
    ghost contents = { λ s. Some s.written.octets };

    fn write(&mut self, octets: &[u8]) -> io::Result<usize> {
        self.settle()?;
        let plain = plain_len(octets);
        if plain > 0 && self.held.is_empty() {
            return self.pass(&octets[..plain]);
        }
        if octets.is_empty() {
            return Ok(0);
        }
        self.hold(&octets[..1])?;
        Ok(1)
    }

    fn flush(&mut self) -> io::Result<()> {
        self.settle()?;
        self.under.flush()
    }
}
