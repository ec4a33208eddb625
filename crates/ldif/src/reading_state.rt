//! Puts records together from what lines say, one after the other.

ghost use Rattle.std.specs.Prelude.{◌≡◌, Ok, IfOk, IfErr, OnOk, OnErr, string_bytes};
ghost use Rattle.ldif.specs.Reading as specs;
ghost use Rattle.ldif.specs.private.Said.{said_of};
ghost use Rattle.ldif.specs.private.Faults.{IsLineFault};

use crate::fault::{LdifCause, LdifError};
use crate::record::{AttributeValue, Record};
use crate::saying::Said;
use ldap_words::is_same_word;
use std::alloc::{AllocError, Global};
use std::marker::Model;

/// What was read so far: whole records, the one that stands open, and whether a version or a record has come.
#[derive(Drop)]
pub struct Reading {
    done: Vec<Record>,
    current: Option<Record>,
    begun: bool,
}

impl Model for Reading {
    ghost use Rattle.ldif.specs.Reading.{ReadingModel};

    ghost Value = { ReadingModel };

    ghost view = { λ s. record { done = s.done.items; current = s.current; begun = s.begun } };
}

/// Whether a value is the version 1, where it stands as it is.
fn is_version(value: &AttributeValue) -> bool
    ensures { result ≡ specs.is_version value.now }
{
    is_same_word(value.description().as_bytes(), b"version") && is_one(value.octets())
}

/// Whether the octets are `1`.
fn is_one(octets: &[u8]) -> bool
    ensures { result ≡ specs.is_one octets.now }
{
    match octets {
        [digit] => *digit == b'1',
        _ => false,
    }
}

/// Why a value stands outside records, by whether a version or a record has come.
fn misplaced(begun: bool, value: &AttributeValue) -> LdifCause
    ensures { result ≡ specs.misplaced begun value.now }
{
    if !is_same_word(value.description().as_bytes(), b"version") {
        return LdifCause::NoRecord;
    }
    if begun {
        LdifCause::LateVersion
    } else {
        LdifCause::BadVersion
    }
}

impl Reading {
    /// Nothing was read.
    pub fn new(alloc: Global) -> Reading
        ensures { result ≡ specs.nothing_read }
    {
        Reading {
            done: Vec::new(alloc),
            current: None,
            begun: false,
        }
    }

    /// Ends the record that stands open. An `Err` keeps the whole ones, and the open one is gone.
    fn close(&mut self) -> Result<(), AllocError>
        ensures ok { OnOk result (self.new ≡ specs.after_blank self.old) }
        ensures err { OnErr result (self.new.done ≡ self.old.done) }
    {
        match self.current.take() {
            Some(whole) => {
                self.done.push(whole)?;
            }
            None => {}
        }
        Ok(())
    }

    /// Begins a record. An `Err` keeps the whole ones.
    fn put_name(&mut self, alloc: Global, name: String, line: usize) -> Result<(), LdifError>
        ensures taken { OnOk result (specs.after_name self.old (string_bytes name) self.old.current ≡ Ok self.new) }
        ensures refused { IfErr result
            (λ e. IsLineFault e (specs.after_name self.old (string_bytes name) self.old.current) line) }
        ensures err { OnErr result (self.new.done ≡ self.old.done) }
    {
        match self.current.take() {
            Some(_) => Err(LdifError::BadLdif {
                line,
                cause: LdifCause::SecondName,
            }),
            None => {
                self.current = Some(Record::new(name, Vec::new(alloc)));
                self.begun = true;
                Ok(())
            }
        }
    }

    /// Takes a value of the record that stands open, or the version before all else. An `Err` keeps the whole ones.
    fn put_value(
        &mut self,
        is_version: bool,
        value: AttributeValue,
        line: usize,
    ) -> Result<(), LdifError>
        ensures taken { OnOk result (specs.after_value self.old is_version value self.old.current ≡ Ok self.new) }
        ensures refused { IfErr result
            (λ e. IsLineFault e (specs.after_value self.old is_version value self.old.current) line) }
        ensures err { OnErr result (self.new.done ≡ self.old.done) }
    {
        match self.current.take() {
            Some(mut whole) => {
                whole.push(value)?;
                self.current = Some(whole);
                Ok(())
            }
            None => {
                if self.begun || !is_version {
                    return Err(LdifError::BadLdif {
                        line,
                        cause: misplaced(self.begun, &value),
                    });
                }
                self.begun = true;
                Ok(())
            }
        }
    }

    /// Takes what one more line says. An `Err` keeps the whole records; the one that stands open may be gone.
    pub fn put(&mut self, alloc: Global, said: Said, line: usize) -> Result<(), LdifError>
        ensures taken { OnOk result (specs.after_line self.old (said_of said) ≡ Ok self.new) }
        ensures refused { IfErr result (λ e. IsLineFault e (specs.after_line self.old (said_of said)) line) }
        ensures err { OnErr result (self.new.done ≡ self.old.done) }
    {
        match said {
            Said::Blank => Ok(self.close()?),
            Said::Comment => Ok(()),
            Said::Name(name) => self.put_name(alloc, name, line),
            Said::Value(value) => self.put_value(is_version(&value), value, line),
            Said::Encoded(value) => self.put_value(false, value, line),
            Said::Wrong(cause) => Err(LdifError::BadLdif { line, cause }),
        }
    }

    /// The records that were read.
    pub fn finish(self) -> Result<Vec<Record>, AllocError>
        ensures { IfOk result (λ v. v.items ≡ specs.with_open self.done self.current) }
    {
        let mut reading = self;
        reading.close()?;
        Ok(reading.done)
    }
}
