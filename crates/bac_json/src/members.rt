//! Objects of JSON, one member after another.
ghost use Rattle.std.specs.Prelude.{◌≡◌, false, true, IfOk};
ghost use Rattle.bac_json.specs.Members.{Extends, is_whole, members_in};
ghost use Rattle.serde_json.specs.Data.{boolean, no_members, number, object, put as with_member, string, unsigned};
ghost use Rattle.serde_json.specs.View.{view};

use serde_json::{Map, Value as Json, put};
use std::alloc::{AllocError, Global};

/// An object that gets one member after another. Where memory is out, `end` says so.
#[derive(Drop)]
pub struct Members {
    alloc: Global,
    map: Map<String, Json>,
    is_whole: bool,
}

impl Members {
    /// An object with no members.
    pub fn new(alloc: Global) -> Members
        ensures { members_in result ≡ no_members }
    {
        Members {
            alloc,
            map: Map::new(alloc),
            is_whole: true,
        }
    }

    fn add(&mut self, key: &str, value: Json) -> Result<(), AllocError>
        ensures { IfOk result (λ _. (is_whole self.new ≡ is_whole self.old) × (members_in self.new ≡ with_member key.now (view value) (members_in self.old))) }
    {
        put(&mut self.map, self.alloc, key, value)
    }

    fn add_text(&mut self, key: &str, text: &str) -> Result<(), AllocError>
        ensures { IfOk result (λ _. (is_whole self.new ≡ is_whole self.old) × (members_in self.new ≡ with_member key.now (string text.now) (members_in self.old))) }
    {
        let value = Json::try_from_str(self.alloc, text)?;
        self.add(key, value)
    }

    /// The same with one more member.
    pub fn json(mut self, key: &str, value: Json) -> Members
        ensures { Extends (with_member key.now (view value)) self result }
    {
        if self.add(key, value).is_err() {
            self.is_whole = false;
        }
        self
    }

    /// The same with a text as one more member.
    pub fn text(mut self, key: &str, text: &str) -> Members
        ensures { Extends (with_member key.now (string text.now)) self result }
    {
        if self.add_text(key, text).is_err() {
            self.is_whole = false;
        }
        self
    }

    /// The same with a number as one more member.
    pub fn number(self, key: &str, value: u64) -> Members
        ensures { Extends (with_member key.now (number (unsigned value))) self result }
    {
        self.json(key, Json::from(value))
    }

    /// The same with a boolean as one more member.
    pub fn flag(self, key: &str, value: bool) -> Members
        ensures { Extends (with_member key.now (boolean value)) self result }
    {
        self.json(key, Json::from(value))
    }

    /// The same, where memory is out for one more member.
    pub(crate) fn lost(mut self) -> Members
        ensures { is_whole result ≡ false }
    {
        self.is_whole = false;
        self
    }

    /// The object. An Err is out of memory, at any member.
    pub fn end(self) -> Result<Json, AllocError>
        ensures { IfOk result (λ v. (is_whole self ≡ true) × (view v ≡ object (members_in self))) }
    {
        if self.is_whole {
            Ok(Json::Object(self.map))
        } else {
            Err(AllocError)
        }
    }
}
