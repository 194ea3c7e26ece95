//! The table and the lists of a group of cases, and the answers to its questions.

use crate::all::{call_lines, sig_lines, type_lines};
use crate::choice::chosen;
use crate::halt::Halt;
use crate::heads::read_signature;
use crate::judging::judged;
use crate::reading::{read_type, read_types};
use crate::signatures::{application, body, keeping, row_count, rows, sig_standing, variables};
use crate::types::{
    above, declared, found, kept, lacking, names, node_count, normal_form, plain_scope,
    type_standing,
};
use jl_model::ty::{DeclKind, Ty, Tys, Written};
use jl_types::Table;
use std::alloc::{AllocError, Global};

/// The table and the lists of a group.
#[derive(Drop)]
pub struct Cases {
    table: Table,
    types: Vec<Ty>,
    sigs: Vec<Written>,
    calls: Vec<Tys>,
}

impl Cases {
    /// The built-in types, and empty lists.
    pub fn new(alloc: Global) -> Result<Cases, AllocError> {
        Ok(Cases {
            table: Table::new(alloc)?,
            types: Vec::new(alloc),
            sigs: Vec::new(alloc),
            calls: Vec::new(alloc),
        })
    }

    /// Lists a type, and gives its normal form.
    fn list_type(&mut self, alloc: Global, text: &str) -> Result<String, Halt> {
        let ty = read_type(alloc, plain_scope(&self.table), text)?;
        let answer = normal_form(alloc, &self.table, &ty);
        self.types.push(ty)?;
        answer
    }

    /// Lists a signature, and gives the number of its rows.
    fn list_sig(&mut self, alloc: Global, text: &str) -> Result<String, Halt> {
        let written = read_signature(alloc, &self.table, text)?;
        let answer = row_count(alloc, &self.table, &written);
        self.sigs.push(written)?;
        answer
    }

    /// Lists the types of a call, and gives their number.
    fn list_call(&mut self, alloc: Global, text: &str) -> Result<String, Halt> {
        let types = read_types(alloc, plain_scope(&self.table), text)?;
        let count = types.len();
        self.calls.push(Tys::from_vec(alloc, types)?)?;
        Ok(format!(in alloc; "{count}")?)
    }

    /// The answers about all that was listed.
    fn all(&self, alloc: Global, word: &str) -> Result<String, Halt> {
        let sigs = self.sigs.as_slice();
        match word {
            "types" => type_lines(alloc, &self.table, self.types.as_slice()),
            "signatures" => sig_lines(alloc, &self.table, sigs),
            "calls" => call_lines(alloc, &self.table, sigs, self.calls.as_slice()),
            _ => Err(Halt::Unread),
        }
    }

    /// The answer to a question about signatures.
    fn about_signatures(&self, alloc: Global, word: &str, text: &str) -> Result<String, Halt> {
        let table = &self.table;
        match word {
            "rows" => rows(alloc, table, text),
            "variables" => variables(alloc, table, text),
            "keep" => keeping(alloc, table, text),
            "apply" => application(alloc, table, text),
            "choose" => chosen(alloc, table, text),
            "body" => Ok(format!(in alloc; "{}", body(alloc, table, text)?)?),
            "signatures" => Ok(format!(in alloc; "{}", sig_standing(alloc, table, text)?)?),
            _ => Err(Halt::Unread),
        }
    }

    /// The answer to a question about types, or about signatures.
    fn about(&self, alloc: Global, word: &str, text: &str) -> Result<String, Halt> {
        let table = &self.table;
        match word {
            "all" => self.all(alloc, text),
            "kept" => kept(alloc, table, text),
            "names" => names(alloc, table),
            "nodes" => node_count(alloc, table, text),
            "above" => above(alloc, table, text),
            "find" => found(alloc, table, text),
            "lacking" => lacking(alloc, table, text),
            "judge" => judged(alloc, table, text),
            "types" => Ok(format!(in alloc; "{}", type_standing(alloc, table, text)?)?),
            _ => self.about_signatures(alloc, word, text),
        }
    }

    /// Takes a line's word and what is behind it, and gives its answer.
    pub fn answer(&mut self, alloc: Global, word: &str, text: &str) -> Result<String, Halt> {
        match word {
            "abstract" => declared(alloc, &mut self.table, DeclKind::Abstract, text),
            "struct" => declared(alloc, &mut self.table, DeclKind::Struct, text),
            "type" => self.list_type(alloc, text),
            "signature" => self.list_sig(alloc, text),
            "call" => self.list_call(alloc, text),
            _ => self.about(alloc, word, text),
        }
    }
}
